//! Which views hear a message, and how they hear it.

ghost use Rattle.std.specs.Prelude.{◌≡◌, ℕ, None, Some, map, slice_get, slice_set, Contains, IfOk, OnOk};
ghost use Rattle.std.specs.List.Sorted.{IsStrictlyIncreasing};
ghost use Rattle.nsi_primitive.specs.Messages.{named_connection};
ghost use Rattle.id_index.specs.declared.IdPlace.{IdPlace as IdPlaceValue};
ghost use Rattle.agent_state.specs.declared.parent.View.{View as ViewValue};
ghost use Rattle.requester_agent.specs.Indexed.{IsReachedBy};
ghost use Rattle.requester_agent.specs.Steps.{view_hears};

use agent_state::View;
use id_index::IdIndex;
use nsi_primitive::{Id, Message};
use record_index::Places;
use std::alloc::{AllocError, Global};

/// The places that an index names for the ids that a message reaches.
pub fn places_told(alloc: Global, ids: &IdIndex, message: &Message) -> Result<Places, AllocError>
    ensures { IfOk result (λ places. (place id : ℕ) → IsReachedBy message.now id →
        Contains ids.now (record { id = id; place = place }) → Contains places place) }
{
    let mut places = Vec::new(alloc);
    ids.note_places(message.header.correlation, &mut places)?;
    note_named(ids, message, &mut places)?;
    Ok(Places::among(places))
}

/// Puts the places of the connection that a message names behind others.
fn note_named(ids: &IdIndex, message: &Message, places: &mut Vec<usize>) -> Result<(), AllocError>
    ensures kept { OnOk result ((place : ℕ) →
        Contains places.old.items place → Contains places.new.items place) }
    ensures named { OnOk result ((place id : ℕ) → named_connection message.now.body ≡ Some id →
        Contains ids.now (record { id = id; place = place }) →
        Contains places.new.items place) }
{
    match message.body.named_connection() {
        Some(connection) => {
            ids.note_places(connection, places)?;
            Ok(())
        }
        None => Ok(()),
    }
}

/// Names the connection of a message with places, whose views may learn it.
pub fn name_learnt(ids: &mut IdIndex, message: &Message, places: &[usize]) -> Result<(), AllocError>
    ensures kept { (e : IdPlaceValue) → Contains ids.old e → Contains ids.new e }
    ensures named { OnOk result ((place id : ℕ) → named_connection message.now.body ≡ Some id →
        Contains places.now place → Contains ids.new (record { id = id; place = place })) }
{
    match message.body.named_connection() {
        Some(connection) => {
            name_at(ids, connection, places)?;
            Ok(())
        }
        None => Ok(()),
    }
}

/// Names an id with places.
fn name_at(ids: &mut IdIndex, id: Id, places: &[usize]) -> Result<(), AllocError>
    ensures kept { (e : IdPlaceValue) → Contains ids.old e → Contains ids.new e }
    ensures named { OnOk result ((place : ℕ) → Contains places.now place →
        Contains ids.new (record { id = id; place = place })) }
{
    for place in places {
        ids.add(id, *place)?;
    }
    Ok(())
}

/// The views at places hear the message, which leaves the others alone: so all have heard it. It takes no memory.
pub fn hear_at(views: &mut [View], places: &[usize], message: &Message)
    requires rising { IsStrictlyIncreasing places.now }
    requires others { (place : ℕ) (v : ViewValue) → slice_get views.old place ≡ Some v →
        ¬ Contains places.now place → view_hears message.now v ≡ v }
    ensures { views.new ≡ map (view_hears message.now) views.old }
{
    for place in places {
        hear_there(views, *place, message);
    }
}

/// The view at a place hears the message, where there is one.
fn hear_there(views: &mut [View], place: usize, message: &Message)
    ensures there { (v : ViewValue) → slice_get views.old place ≡ Some v →
        views.new ≡ slice_set views.old place (view_hears message.now v) }
    ensures none { slice_get views.old place ≡ None → views.new ≡ views.old }
{
    if place < views.len() {
        hear(&mut views[place], message);
    }
}

fn hear(view: &mut View, message: &Message)
    ensures { view.new ≡ view_hears message.now view.old }
{
    let _taken = view.child.take(message);
}
