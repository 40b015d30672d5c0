//! Places of records.

ghost use Rattle.std.specs.Prelude.{◌≡◌, ◌≢◌, ◌↔◌, ◌⊎◌, ℕ, [], OnOk, OnErr, Contains};
ghost use Rattle.std.specs.List.Sorted.{IsStrictlyIncreasing};

use std::alloc::{AllocError, Global};
use std::marker::Model;

/// Places in rising order, each once.
#[derive(Drop)]
pub struct Places {
    items: Vec<usize>,
}

impl Model for Places {
    ghost use Rattle.std.specs.Prelude.{List, ℕ};
    ghost use Rattle.std.specs.List.Sorted.{IsStrictlyIncreasing};

    ghost Value = { List ℕ };

    ghost view = { λ p. p.items.items };

    ghost invariant = { λ p. IsStrictlyIncreasing p.items.items };
}

impl Places {
    pub fn new(alloc: Global) -> Places
        ensures { result ≡ [] }
    {
        Places {
            items: Vec::new(alloc),
        }
    }

    /// The places among some that come in any order, maybe more than once.
    pub fn among(places: Vec<usize>) -> Places
        ensures { (p : ℕ) → Contains result p ↔ Contains places.items p }
    {
        let mut items = places;
        items.sort_unstable();
        items.dedup();
        Places { items }
    }

    pub fn items(&self) -> &[usize]
        ensures items { result.now ≡ self.now }
        ensures rising { IsStrictlyIncreasing self.now }
    {
        &self.items
    }

    /// Adds a place, where it is wanting.
    pub fn add(&mut self, place: usize) -> Result<(), AllocError>
        ensures ok { OnOk result ((p : ℕ) →
            Contains self.new p ↔ ((p ≡ place) ⊎ Contains self.old p)) }
        ensures err { OnErr result (self.new ≡ self.old) }
    {
        if let Err(at) = self.items.binary_search(&place) {
            self.items.insert(at, place)?;
        }
        Ok(())
    }

    /// Takes a place out, where it is there.
    pub fn remove(&mut self, place: usize)
        ensures { (p : ℕ) → Contains self.new p ↔ ((p ≢ place) × Contains self.old p) }
    {
        if let Ok(at) = self.items.binary_search(&place) {
            self.items.remove(at);
        }
    }
}
