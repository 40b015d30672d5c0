//! A message on its way through connections.

use crate::agent::Agent;
use nsi_base::Second;
use nsi_primitive::Message;
use std::alloc::Global;

/// The message, who takes it, and when, and the memory for what it causes.
#[derive(Clone, Copy)]
pub struct Entering<'a> {
    pub alloc: Global,
    pub agent: &'a Agent,
    pub message: &'a Message,
    pub second: Second,
}
