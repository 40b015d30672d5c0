//! What callers kept, compared with what the history of their provider has of them.
#![tactic(auto)]

mod judging;

pub use judging::{Course, Own, Verdict, judge, second_of};
