//! What every run keeps as it goes on: records and views stay, capacities hold, refusals for bandwidth are honest, committed versions
//! rise, what is synced stays, and no two messages that were sent have one identity.
#![tactic(auto)]

pub mod laws;
