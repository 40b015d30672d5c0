//! At which places an id may stand.
#![tactic(auto)]

ghost use Rattle.std.specs.Prelude.{◌≡◌, ◌↔◌, ◌⊎◌, ◌++◌, ℕ, [], map, OnOk, OnErr, Contains};
ghost use Rattle.id_index.specs.declared.IdPlace.{IdPlace as IdPlaceValue};

use nsi_primitive::Id;
use std::alloc::{AllocError, Global};
use std::collections::BTreeSet;
use std::collections::btree_set::Range;
use std::marker::Model;

/// A place at which an id may stand. Its order is that of the ids, and then that of the places.
#[derive(Clone, Copy, Debug, PartialEq, Eq, PartialOrd, Ord)]
pub struct IdPlace {
    pub id: Id,
    pub place: usize,
}

/// Places of ids, each of which is found without looking at the others.
#[derive(Drop)]
pub struct IdIndex {
    entries: BTreeSet<IdPlace>,
}

impl Model for IdIndex {
    ghost use Rattle.std.specs.Prelude.{List, All, ◌<◌, ◌^◌};
    ghost use Rattle.id_index.specs.declared.IdPlace.{IdPlace};

    ghost Value = { List IdPlace };

    ghost view = { λ i. i.entries.keys };

    ghost invariant = { λ i. All (λ e. e.place < 2 ^ 64) i.entries.keys };
}

impl IdIndex {
    pub fn new(alloc: Global) -> IdIndex
        ensures { result ≡ [] }
    {
        IdIndex {
            entries: BTreeSet::new(alloc),
        }
    }

    /// Adds a place of an id. What is there stays, and is there once.
    pub fn add(&mut self, id: Id, place: usize) -> Result<(), AllocError>
        ensures ok { OnOk result ((e : IdPlaceValue) → Contains self.new e ↔
            ((e ≡ record { id = id; place = place }) ⊎ Contains self.old e)) }
        ensures err { OnErr result (self.new ≡ self.old) }
    {
        self.entries.insert(IdPlace { id, place })?;
        Ok(())
    }

    /// Puts the places of an id behind others, of which some may be put there for another id too.
    pub fn note_places(&self, id: Id, places: &mut Vec<usize>) -> Result<(), AllocError>
        ensures { OnOk result ((p : ℕ) → Contains places.new.items p ↔
            (Contains places.old.items p ⊎ Contains self.now (record { id = id; place = p }))) }
    {
        let first = IdPlace { id, place: 0 };
        let last = IdPlace {
            id,
            place: usize::MAX,
        };
        note_all(self.entries.range(first..=last), places)?;
        Ok(())
    }
}

/// Puts the places of some entries behind others.
fn note_all(entries: Range<'_, IdPlace>, places: &mut Vec<usize>) -> Result<(), AllocError>
    ensures { OnOk result
        (places.new.items ≡ places.old.items ++ map (λ e. e.place) entries.entry) }
{
    for entry in entries {
        places.push(entry.place)?;
    }
    Ok(())
}
