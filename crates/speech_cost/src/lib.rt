//! What agents say against the requests that they take: each request is worth so much, and all that is ever said is paid by requests.
#![tactic(auto)]

pub mod laws;
