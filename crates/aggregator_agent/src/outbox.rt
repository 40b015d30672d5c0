//! What an aggregator keeps of what it has said.

ghost use Rattle.std.specs.Prelude.{◌≡◌};
ghost use Rattle.message_retry.specs.Retry.{without};
ghost use Rattle.aggregator_agent.specs.Step.{IsStored};

use crate::due_table::DueTable;
use crate::said::Said;
use message_retry::Retry;
use nsi_primitive::Identity;
use std::alloc::{AllocError, Global};

/// The messages that wait for their acknowledgement, those that were taken, and its requests to children.
#[derive(Drop)]
pub struct Outbox {
    pub retry: Retry,
    pub dues: DueTable,
}

impl Outbox {
    /// What was said waits, all of it or nothing.
    pub fn store(&mut self, alloc: Global, said: &Said) -> Result<(), AllocError>
        ensures { IsStored self.old self.new said.now result }
    {
        let count = self.dues.len();
        self.dues.extend(&said.dues)?;
        match self.retry.store(alloc, &said.out) {
            Ok(()) => Ok(()),
            Err(error) => {
                self.dues.truncate(count);
                Err(error)
            }
        }
    }

    /// A message was acknowledged, and waits no more. It takes no memory.
    pub fn acked(&mut self, identity: &Identity)
        ensures { let rest = without identity.now self.old.retry.waiting in
            self.new
            ≡ record self.old { retry = record self.old.retry { waiting = rest } } }
    {
        let _has_waited = self.retry.acked(identity);
    }
}
