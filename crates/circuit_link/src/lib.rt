//! A parent's view of a connection against its child's record: what each says and takes, and how far apart they may be.
#![tactic(auto)]

pub mod laws;
