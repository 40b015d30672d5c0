//! Tests alone: journals over the disk in memory, cut off at each call.
#![tactic(auto)]

#[cfg(test)]
mod opening;
