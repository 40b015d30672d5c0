//! What is told of a run: its events, or how many it has and which answers its requesters got.
#![tactic(auto)]

mod report;
mod totals;

pub use report::Report;
pub use totals::Totals;
