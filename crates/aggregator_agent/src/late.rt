//! Which requests to children are late.

ghost use Rattle.std.specs.Prelude.{◌≡◌, IfOk, filter};
ghost use Rattle.aggregator_agent.specs.Clock.{is_late};
ghost use Rattle.aggregator_agent.specs.Dues.{ArePlacesOf};

use crate::due_table::DueTable;
use crate::outbox::Outbox;
use agent_state::Due;
use nsi_base::Second;
use nsi_primitive::Message;
use record_index::Places;
use std::alloc::{AllocError, Global};
use std::collections::btree_map::Values;

/// The requests that are late and were not told, and where they stand.
#[derive(Drop)]
pub struct Lateness {
    pub late: Vec<Due>,
    pub places: Places,
}

/// Which requests are late by a second. Those for which no message waits are not looked at.
pub fn find_late(alloc: Global, outbox: &Outbox, now: Second) -> Result<Lateness, AllocError>
    ensures late { let is_late_now = is_late now outbox.now.retry.waiting in
        IfOk result (λ x. x.late.items ≡ filter is_late_now outbox.now.dues) }
    ensures places { let is_late_now = is_late now outbox.now.retry.waiting in
        IfOk result (λ x. ArePlacesOf is_late_now outbox.now.dues x.places) }
{
    let places = late_places(alloc, &outbox.dues, outbox.retry.waiting(), now)?;
    let late = outbox.dues.at(alloc, places.items())?;
    Ok(Lateness { late, places })
}

/// The places of the requests that are late by a second, where these messages wait.
fn late_places(
    alloc: Global,
    dues: &DueTable,
    waiting: Values<'_, u64, Message>,
    now: Second,
) -> Result<Places, AllocError>
    ensures { IfOk result (λ places. ArePlacesOf (is_late now waiting.entry) dues.now places) }
{
    let mut places = Vec::new(alloc);
    for message in waiting {
        dues.note_late(alloc, message, now, &mut places)?;
    }
    Ok(Places::among(places))
}
