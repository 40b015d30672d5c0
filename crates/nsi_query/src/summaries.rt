//! The rows of an owner's connections.

ghost use Rattle.std.specs.Prelude.{◌≡◌, ◌++◌, ◌∷◌, [], length, map, IfOk, OnOk};
ghost use Rattle.std.specs.Prelude.{List as Sequence};
ghost use Rattle.std.specs.List.{zip};
ghost use Rattle.nsi_query.specs.Answers.{shown_at};
ghost use Rattle.nsi_query.specs.Summary.{Shown, summary_row, summary, summary_of};

use crate::rows::Rows;
use connection_record::Record;
use nsi_base::{Name, Second, copy_text};
use nsi_primitive::{Plane, SummaryRow};
use std::alloc::{AllocError, Global};

const MOST_SUMMARIES: usize = 16;

/// The rows of a requester's connections, of which each has the status that stands at its place.
pub fn summary(
    alloc: Global,
    all: &[Record],
    planes: &[Plane],
    requester: &Name,
) -> Result<Rows<SummaryRow>, AllocError>
    requires { length all.now ≡ length planes.now }
    ensures { IfOk result (λ found. found ≡ summary requester.now (zip all.now planes.now)) }
{
    let mut found = Rows::new(alloc);
    for place in 0..all.len() {
        add_own(&mut found, &all[place], &planes[place], requester)?;
    }
    Ok(found)
}

/// The rows of a requester's connections, each with its status at a second.
pub fn summary_at(
    alloc: Global,
    all: &[Record],
    now: Second,
    requester: &Name,
) -> Result<Rows<SummaryRow>, AllocError>
    ensures { IfOk result
        (λ found. found ≡ summary requester.now (map (shown_at now) all.now)) }
{
    let mut found = Rows::new(alloc);
    for of in all {
        add_own(&mut found, of, &of.status(now), requester)?;
    }
    Ok(found)
}

/// The row of one connection.
pub fn summary_of(alloc: Global, of: &Record, plane: &Plane) -> Result<Rows<SummaryRow>, AllocError>
    ensures { IfOk result (λ found. found ≡ summary_of (of.now, plane.now)) }
{
    let mut found = Rows::new(alloc);
    found.add(MOST_SUMMARIES, summary_row(of, plane)?)?;
    Ok(found)
}

/// Adds a connection's row to those of the connections before it, where it is the requester's. Where memory is wanting the
/// rows may be half-done.
pub fn add_own(
    found: &mut Rows<SummaryRow>,
    of: &Record,
    plane: &Plane,
    requester: &Name,
) -> Result<(), AllocError>
    ensures { (before : Sequence Shown) → found.old ≡ summary requester.now before →
        let all = before ++ (of.now, plane.now) ∷ [] in
        OnOk result (found.new ≡ summary requester.now all) }
{
    if found.more || !requester.is(&of.owner) {
        return Ok(());
    }
    found.add(MOST_SUMMARIES, summary_row(of, plane)?)?;
    Ok(())
}

#[tactic(auto, unfolding(crate::specs::Summary::summary_row))]
fn summary_row(of: &Record, plane: &Plane) -> Result<SummaryRow, AllocError>
    ensures { IfOk result (λ row. row ≡ summary_row (of.now, plane.now)) }
{
    let last = of.last();
    Ok(SummaryRow {
        active: plane.active,
        capacity: last.map(|criteria| criteria.capacity),
        connection: of.id,
        description: copy_text(&of.service.description)?,
        dest: of.service.dest.copy()?,
        directionality: of.service.directionality,
        end: last.map(|criteria| criteria.interval.end()),
        global: copy_text(&of.service.global)?,
        lifecycle: of.lsm,
        provision: of.psm,
        reservation: of.rsm,
        source: of.service.source.copy()?,
        start: last.map(|criteria| criteria.interval.start()),
        version: last.map(|criteria| criteria.version),
    })
}
