//! Tests alone: requesters that race for one provider.
#![tactic(auto)]

#[cfg(test)]
mod racing;
