//! Which service termination points are joined.

ghost use Rattle.std.specs.Prelude.{◌≡◌, [], ◌∷◌, ◌++◌, OnOk, OnErr, Some, None, slice_set};

use nsi_base::StpNo;
use std::alloc::{AllocError, Global};
use std::marker::Model;

/// The partner of each point, in the order of their declaration.
#[derive(Drop)]
pub struct Partners {
    items: Vec<Option<StpNo>>,
}

impl Model for Partners {
    ghost use Rattle.std.specs.Prelude.{List, ℕ, Option};

    ghost Value = { List (Option ℕ) };

    ghost view = { λ p. p.items.items };
}

impl Partners {
    pub fn new(alloc: Global) -> Self
        ensures { result ≡ [] }
    {
        Partners {
            items: Vec::new(alloc),
        }
    }

    /// One point more, that is joined with none.
    pub fn push_alone(&mut self) -> Result<(), AllocError>
        ensures ok { OnOk result (self.new ≡ self.old ++ None ∷ []) }
        ensures err { OnErr result (self.new ≡ self.old) }
    {
        self.items.push(None)?;
        Ok(())
    }

    fn put(&mut self, point: StpNo, partner: StpNo)
        ensures { self.new ≡ slice_set self.old point (Some partner) }
    {
        if let Some(place) = self.items.get_mut(point.get() as usize) {
            *place = Some(partner);
        }
    }

    pub fn join(&mut self, i: StpNo, j: StpNo)
        ensures { self.new ≡ slice_set (slice_set self.old i (Some j)) j (Some i) }
    {
        self.put(i, j);
        self.put(j, i);
    }

    pub fn items(&self) -> &[Option<StpNo>]
        ensures { result.now ≡ self.now }
    {
        &self.items
    }
}
