//! What agents keep and say, whatever their kind.
#![tactic(auto)]

mod opening;
mod parent;
mod saying;

pub use opening::service_of;
pub use parent::{Due, Leg, OpenQuery, Part, View};
pub use saying::{push_replies, refusal_of, reply_of};
