//! Copies of the rows of answers.

ghost use Rattle.std.specs.Prelude.{◌≡◌, IfOk};

use crate::message::{Notice, Outcome, RecursiveRow, SummaryRow};
use nsi_base::{List, copy_text};
use std::alloc::AllocError;

impl SummaryRow {
    pub fn copy(&self) -> Result<SummaryRow, AllocError>
        ensures { IfOk result (λ r. r ≡ self.now) }
    {
        Ok(SummaryRow {
            description: copy_text(&self.description)?,
            dest: self.dest.copy()?,
            global: copy_text(&self.global)?,
            source: self.source.copy()?,
            ..*self
        })
    }
}

impl RecursiveRow {
    pub fn copy(&self) -> Result<RecursiveRow, AllocError>
        ensures { IfOk result (λ r. r ≡ self.now) }
    {
        Ok(RecursiveRow {
            connection: self.connection,
            depth: self.depth,
            lifecycle: self.lifecycle,
            provider: self.provider.copy()?,
            provision: self.provision,
            reservation: self.reservation,
            version: self.version,
        })
    }
}

pub fn copy_summary_rows(rows: &List<SummaryRow>) -> Result<List<SummaryRow>, AllocError>
    ensures { IfOk result (λ copy. copy ≡ rows.now) }
{
    let mut copy = rows.new_alike();
    for row in rows.items() {
        copy.push(row.copy()?)?;
    }
    Ok(copy)
}

pub fn copy_recursive_rows(rows: &List<RecursiveRow>) -> Result<List<RecursiveRow>, AllocError>
    ensures { IfOk result (λ copy. copy ≡ rows.now) }
{
    let mut copy = rows.new_alike();
    for row in rows.items() {
        copy.push(row.copy()?)?;
    }
    Ok(copy)
}

pub fn copy_notices(notices: &List<Notice>) -> Result<List<Notice>, AllocError>
    ensures { IfOk result (λ copy. copy ≡ notices.now) }
{
    let mut copy = notices.new_alike();
    for notice in notices.items() {
        copy.push(*notice)?;
    }
    Ok(copy)
}

pub fn copy_outcomes(outcomes: &List<Outcome>) -> Result<List<Outcome>, AllocError>
    ensures { IfOk result (λ copy. copy ≡ outcomes.now) }
{
    let mut copy = outcomes.new_alike();
    for outcome in outcomes.items() {
        copy.push(*outcome)?;
    }
    Ok(copy)
}
