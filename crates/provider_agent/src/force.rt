//! How a connection is ended by force.

ghost use Rattle.std.specs.Prelude.{◌≡◌, ◌<◌, length, Contains, nat_lt, ◌&&◌};
ghost use Rattle.connection_record.specs.Refusal.{is_created};
ghost use Rattle.provider_agent.specs.State.{record_at};
ghost use Rattle.provider_agent.specs.Steps.{forces, forces_at, is_forcible};
ghost use Rattle.provider_agent.specs.Core.{IsConsistent, IsReady};
ghost use Rattle.provider_agent.specs.Step.{IsStep};

use crate::provider_core::Core;
use crate::records::{Moment, turn_at};
use connection_record::{LifecycleMove, Move, Record};
use nsi_base::RecordNo;
use nsi_primitive::{Lsm, Message, id_of};
use std::alloc::{AllocError, Global};

impl Core {
    /// Ends the connection of a record by force. One that isn't created stays as it is.
    #[tactic(auto, unfolding(crate::specs::Steps::forces))]
    pub fn force(&mut self, alloc: Global, number: RecordNo) -> Result<Vec<Message>, AllocError>
        requires { IsReady self.old }
        ensures step { IsStep self.old self.new result
            (λ setting s. forces (is_forcible s number) setting s number) }
        ensures consistent { IsConsistent self.new }
    {
        let place = number.get() as usize;
        if !is_forcible(&self.records, place) {
            return Ok(Vec::new(alloc));
        }
        self.waiting.add(place)?;
        self.force_at(alloc, place)
    }

    /// Ends the connection of the record at a place that is named. Its notification is told under the next id.
    fn force_at(&mut self, alloc: Global, place: usize) -> Result<Vec<Message>, AllocError>
        requires ready { IsReady self.old }
        requires within { place < length self.old.records.items }
        requires named { Contains self.old.waiting place }
        ensures step { IsStep self.old self.new result (λ setting s. forces_at setting s place) }
        ensures consistent { IsConsistent self.new }
    {
        let correlation = id_of(self.agent.number, self.next);
        let next = self.next + 1;
        let origin = self.agent.origin_of(&self.records[place])?;
        let event = Move::Lifecycle(LifecycleMove::Force {
            correlation,
            origin,
        });
        let moment = Moment {
            place,
            second: self.now,
            next,
        };
        let turn = turn_at(
            alloc,
            &self.agent,
            &mut self.records,
            &mut self.retry,
            event,
            moment,
        )?;
        self.next = next + turn.drawn;
        self.free_if_dropped(place);
        Ok(turn.out)
    }
}

/// Whether the record at a place is there, and its connection created.
fn is_forcible(records: &[Record], place: usize) -> bool
    ensures { let own = record_at place records.now in
        result ≡ nat_lt place (length records.now) && is_created own.lsm }
{
    match records.get(place) {
        Some(own) => own.lsm == Lsm::Created,
        None => false,
    }
}
