//! The rows of an answer.

ghost use Rattle.std.specs.Prelude.{◌≡◌, ◌++◌, ◌∷◌, [], ℕ, Bool, false, OnOk};
ghost use Rattle.std.specs.Prelude.{List as Sequence};

use nsi_base::List;
use std::alloc::{AllocError, Global};

/// The first rows that an answer has, and whether others were left out, here or below.
#[derive(Debug, Drop)]
pub struct Rows<T> {
    pub rows: List<T>,
    pub more: bool,
}

impl<T> Rows<T> {
    ghost use Rattle.nsi_query.specs.Cut.{cut_beside};

    /// There is no row.
    pub fn new(alloc: Global) -> Self
        ensures { result ≡ record { rows = []; more = false } }
    {
        Rows {
            rows: List::new(alloc),
            more: false,
        }
    }

    /// Puts a row behind the others, where there are fewer than so many. Else it is left out.
    pub fn add(&mut self, most: usize, row: T) -> Result<(), AllocError>
    where
        T: Drop,
        ensures { (missing : Bool) (all : Sequence T) → self.old ≡ cut_beside missing most all →
            OnOk result (self.new ≡ cut_beside missing most (all ++ row ∷ [])) }
    {
        if self.rows.items().len() < most {
            self.rows.push(row)?;
        } else {
            self.more = true;
        }
        Ok(())
    }
}
