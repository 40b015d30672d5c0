//! The law that a play leaves nothing open: what was said was heard, and its acknowledgement was taken.
#![tactic(auto)]

pub mod laws;
