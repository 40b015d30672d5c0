//! When something is to be done to which record.

ghost use Rattle.std.specs.Prelude.{◌≡◌, ◌<◌, ◌↔◌, ◌⊎◌, ℕ, [], IfOk, OnOk, OnErr, Contains};
ghost use Rattle.std.specs.BinaryHeap.{heap_items};
ghost use Rattle.record_index.specs.declared.deadlines.Deadline.{Deadline as DeadlineValue};
ghost use Rattle.record_index.specs.Due.{IsDueIn};
ghost use Rattle.record_index.specs.Heap.{IsDueUnder, IsSoonestFirst, deadlines_of};

use crate::places::Places;
use nsi_base::Second;
use std::alloc::{AllocError, Global};
use std::cmp::Reverse;
use std::collections::BinaryHeap;
use std::marker::Model;

/// A second by which something is to be done to the record at a place. Its order is that of the seconds.
#[derive(Clone, Copy, Debug, PartialEq, Eq, PartialOrd, Ord)]
pub struct Deadline {
    pub second: u64,
    pub place: usize,
}

/// Deadlines, of which the soonest is at hand.
#[derive(Drop)]
pub struct Deadlines {
    entries: BinaryHeap<Reverse<Deadline>>,
}

impl Model for Deadlines {
    ghost use Rattle.std.specs.Prelude.{List};
    ghost use Rattle.std.specs.BinaryHeap.{heap_items};
    ghost use Rattle.record_index.specs.declared.deadlines.Deadline.{Deadline};
    ghost use Rattle.record_index.specs.Heap.{IsSoonestFirst, deadlines_of};

    ghost Value = { List Deadline };

    ghost view = { λ d. deadlines_of (heap_items d.entries) };

    ghost invariant = { λ d. IsSoonestFirst (heap_items d.entries) };
}

impl Deadlines {
    pub fn new(alloc: Global) -> Deadlines
        ensures { result ≡ [] }
    {
        Deadlines {
            entries: BinaryHeap::new(alloc),
        }
    }

    /// Adds a deadline. It may come in any order.
    pub fn add(&mut self, second: u64, place: usize) -> Result<(), AllocError>
        ensures ok { OnOk result ((d : DeadlineValue) → Contains self.new d ↔
            ((d ≡ record { second = second; place = place }) ⊎ Contains self.old d)) }
        ensures err { OnErr result (self.new ≡ self.old) }
    {
        self.entries.push(Reverse(Deadline { second, place }))?;
        Ok(())
    }

    /// The places whose deadlines have come. Of the others it looks at those right under them in the heap.
    pub fn due_by(&self, alloc: Global, now: Second) -> Result<Places, AllocError>
        ensures { IfOk result (λ due. (p : ℕ) → Contains due p ↔ IsDueIn self.now now p) }
    {
        let mut places = Vec::new(alloc);
        note_due(self.entries.as_slice(), 0, now.get(), &mut places)?;
        Ok(Places::among(places))
    }

    /// Forgets the deadlines that have come.
    pub fn pass(&mut self, now: Second)
        ensures { (d : DeadlineValue) →
            Contains self.new d ↔ ((now < d.second) × Contains self.old d) }
    {
        drop_by(&mut self.entries, now.get());
    }
}

/// Notes the places of those deadlines by a second that stand at a place of the heap or under it.
fn note_due(
    entries: &[Reverse<Deadline>],
    at: usize,
    second: u64,
    places: &mut Vec<usize>,
) -> Result<(), AllocError>
    requires { IsSoonestFirst entries.now }
    ensures { OnOk result ((p : ℕ) →
        Contains places.new.items p ↔
        (Contains places.old.items p ⊎ IsDueUnder entries.now at second p)) }
{
    if entries.len() <= at {
        return Ok(());
    }
    let Deadline { second: due, place } = entries[at].0;
    if second < due {
        return Ok(());
    }
    places.push(place)?;
    note_due(entries, 2 * at + 1, second, places)?;
    note_due(entries, 2 * at + 2, second, places)
}

fn drop_by(entries: &mut BinaryHeap<Reverse<Deadline>>, second: u64)
    requires { IsSoonestFirst (heap_items entries.old) }
    ensures order { IsSoonestFirst (heap_items entries.new) }
    ensures left { (d : DeadlineValue) → let now = deadlines_of (heap_items entries.new) in
        let old = deadlines_of (heap_items entries.old) in
        Contains now d ↔ ((second < d.second) × Contains old d) }
{
    while let Some(first) = entries.peek() {
        if second < first.0.second {
            break;
        }
        entries.pop();
    }
}
