//! The rows of a connection's notices and outcomes.

ghost use Rattle.std.specs.Prelude.{◌≡◌, IfOk};
ghost use Rattle.nsi_query.specs.Counted.{is_within, notifications, results};

use crate::rows::Rows;
use connection_record::Record;
use nsi_primitive::{Notice, Outcome};
use std::alloc::{AllocError, Global};

const MOST_NUMBERED: usize = 32;

/// The notices of a connection whose numbers lie between two numbers, these included.
pub fn notifications(
    alloc: Global,
    of: &Record,
    from: u64,
    to: u64,
) -> Result<Rows<Notice>, AllocError>
    ensures { IfOk result (λ found. found ≡ notifications from to of.now) }
{
    let mut found = Rows::new(alloc);
    for notice in of.notices.items() {
        if is_within(from, to, notice.number) {
            found.add(MOST_NUMBERED, *notice)?;
        }
    }
    Ok(found)
}

/// The outcomes of a connection whose numbers lie between two numbers, these included.
pub fn results(alloc: Global, of: &Record, from: u64, to: u64) -> Result<Rows<Outcome>, AllocError>
    ensures { IfOk result (λ found. found ≡ results from to of.now) }
{
    let mut found = Rows::new(alloc);
    for outcome in of.results.items() {
        if is_within(from, to, outcome.number) {
            found.add(MOST_NUMBERED, *outcome)?;
        }
    }
    Ok(found)
}

/// Whether a number lies between two others, or is one of them.
fn is_within(from: u64, to: u64, number: u64) -> bool
    ensures { result ≡ is_within from to number }
{
    from <= number && number <= to
}
