//! What agents of each kind say against what they owe, and which requests their views hold as unanswered: nothing is said twice, and
//! each request of the reservation machine is held by one view until it is answered.
#![tactic(auto)]

pub mod laws;
