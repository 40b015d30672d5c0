//! Copies of a record.

ghost use Rattle.std.specs.Prelude.{◌≡◌, IfOk};

use crate::record::Record;
use nsi_base::List;
use nsi_primitive::{Criteria, copy_notices, copy_outcomes};
use std::alloc::AllocError;

impl Record {
    /// The same record, in memory of its own.
    pub fn copy(&self) -> Result<Record, AllocError>
        ensures { IfOk result (λ r. r ≡ self.now) }
    {
        Ok(Record {
            owner: self.owner.copy()?,
            service: self.service.copy()?,
            committed: copy_criteria(&self.committed)?,
            notices: copy_notices(&self.notices)?,
            results: copy_outcomes(&self.results)?,
            ..*self
        })
    }
}

fn copy_criteria(committed: &List<Criteria>) -> Result<List<Criteria>, AllocError>
    ensures { IfOk result (λ copy. copy ≡ committed.now) }
{
    let mut copy = committed.new_alike();
    for criteria in committed.items() {
        copy.push(*criteria)?;
    }
    Ok(copy)
}
