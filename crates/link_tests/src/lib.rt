//! Tests alone: both ends of links, used at once.
#![tactic(auto)]

#[cfg(test)]
mod at_once;
