//! Each request is answered: by what an agent that takes requests has said, or else it works on the request still, and an aggregator
//! works on one only while an answer of a child is missing.
#![tactic(auto)]

pub mod laws;
