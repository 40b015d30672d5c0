//! Who a provider is.

ghost use Rattle.std.specs.Prelude.{◌≡◌, IfOk};
ghost use Rattle.provider_agent.specs.Steps.{own_origin};

use connection_record::{Origin, Record};
use nsi_base::{AgentNo, HoldTime, Name};
use std::alloc::AllocError;

/// Its name and number, and for how many seconds it holds.
#[derive(Drop)]
pub struct Agent {
    pub name: Name,
    pub number: AgentNo,
    pub hold: HoldTime,
}

impl Agent {
    /// Where a notification of a record's comes from.
    pub fn origin_of(&self, own: &Record) -> Result<Origin, AllocError>
        ensures { IfOk result (λ origin. origin ≡ own_origin self.now own.now) }
    {
        Ok(Origin {
            connection: own.id,
            nsa: self.name.copy()?,
            value: self.hold,
        })
    }
}
