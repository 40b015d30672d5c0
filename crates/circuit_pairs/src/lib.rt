//! All views that a parent has of one child, against that child: whatever each of the two takes, they stay a pair.
#![tactic(auto)]

pub mod laws;
