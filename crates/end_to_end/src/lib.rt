//! What is committed is booked from end to end: port by port, at the providers of a circuit.
#![tactic(auto)]

pub mod laws;
