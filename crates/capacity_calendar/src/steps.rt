//! How many points are read.

ghost use Rattle.std.specs.Prelude.{◌≡◌, ◌+◌, ◌-◌, ◌^◌, min};

use std::marker::{Brand, Model, PhantomData};
use std::sync::ledger::Ledger;

/// A count of the points that are read. Code that is generic in `L` can make no count of its own for `L`.
#[derive(Debug, Drop)]
pub struct Steps<L: Ledger> {
    count: u64,
    ledger: PhantomData<L>,
}

impl<L: Ledger> Model for Steps<L> {
    ghost use Rattle.std.specs.Prelude.{ℕ};

    ghost Value = { ℕ };

    ghost view = { λ s. s.count };
}

impl Steps<Brand> {
    pub fn new() -> Self
        ensures { result ≡ 0 }
    {
        Steps {
            count: 0,
            ledger: PhantomData,
        }
    }
}

impl<L: Ledger> Steps<L> {
    pub fn count(&self) -> u64
        ensures { result ≡ self.now }
    {
        self.count
    }

    /// One step more. The count stays at its greatest once it is there.
    pub(crate) fn add(&mut self)
        ensures { self.new ≡ min (self.old + 1) (2 ^ 64 - 1) }
    {
        self.count = self.count.saturating_add(1);
    }
}
