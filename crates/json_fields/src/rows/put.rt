//! How rows are put to a list.

ghost use Rattle.std.specs.Prelude.{◌≡◌, [], ◌∷◌, ◌++◌, OnOk, OnErr};
ghost use Rattle.serde_json.specs.Data.{object};
ghost use Rattle.json_fields.specs.Written.{members_of, rows_of};

use crate::object::JsonObject;
use crate::rows::JsonRows;
use std::alloc::{AllocError, Global};

impl<'a> JsonRows<'a> {
    pub fn new(alloc: Global) -> Self
        ensures { rows_of result ≡ [] }
    {
        JsonRows {
            items: Vec::new(alloc),
        }
    }

    /// Puts a row behind the others.
    pub fn push(&mut self, row: JsonObject<'a>) -> Result<(), AllocError>
        ensures put { OnOk result
            (rows_of self.new ≡ rows_of self.old ++ object (members_of row.entry) ∷ []) }
        ensures err { OnErr result (rows_of self.new ≡ rows_of self.old) }
    {
        self.items.push(row)?;
        Ok(())
    }
}
