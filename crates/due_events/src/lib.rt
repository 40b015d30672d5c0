//! Events that are due: a message is taken once, an acknowledgement where its message waits, work where it waits, and a sync comes where
//! something isn't synced. Plays make no others, and where there are no others they are few.
#![tactic(auto)]

pub mod laws;
