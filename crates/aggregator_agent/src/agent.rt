//! Who an aggregator is.

ghost use Rattle.std.specs.Prelude.{◌≡◌, ◌<◌, IfOk};
ghost use Rattle.nsi_primitive.specs.Ids.{id_of};

use nsi_base::{AgentNo, Name};
use nsi_primitive::{Id, id_of};
use std::alloc::AllocError;

/// Its name and number.
#[derive(Drop)]
pub struct Agent {
    pub name: Name,
    pub number: AgentNo,
}

impl Agent {
    /// The id of a number that is drawn. There are more numbers than any memory has messages.
    pub fn id(&self, next: u64) -> Result<Id, AllocError>
        ensures id { IfOk result (λ id. id ≡ id_of self.now.number next) }
        ensures few { IfOk result (λ _. next < 4611686018427387904) }
    {
        if next < 4_611_686_018_427_387_904 {
            Ok(id_of(self.number, next))
        } else {
            Err(AllocError)
        }
    }
}
