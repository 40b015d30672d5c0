//! The rows of a connection and of those below it.

ghost use Rattle.std.specs.Prelude.{◌≡◌, ◌++◌, ◌∷◌, [], Bool, ◌||◌, IfOk, OnOk};
ghost use Rattle.std.specs.Prelude.{List as Sequence};
ghost use Rattle.nsi_primitive.specs.declared.message.RecursiveRow.{RecursiveRow as RecursiveRowValue};
ghost use Rattle.nsi_query.specs.Cut.{cut_beside, most_nested};
ghost use Rattle.nsi_query.specs.Nested.{own_row, below, deepened, lacks_rows, nest, reach_too_deep};

use crate::rows::Rows;
use connection_record::Record;
use nsi_base::Name;
use nsi_primitive::RecursiveRow;
use std::alloc::{AllocError, Global};

const MOST_NESTED: usize = 128;

/// The row of an agent's own connection.
#[tactic(auto, unfolding(crate::specs::Nested::own_row))]
pub fn own_row(of: &Record, agent: &Name) -> Result<RecursiveRow, AllocError>
    ensures { IfOk result (λ row. row ≡ own_row agent.now of.now) }
{
    Ok(RecursiveRow {
        connection: of.id,
        depth: 0,
        lifecycle: of.lsm,
        provider: agent.copy()?,
        provision: of.psm,
        reservation: of.rsm,
        version: of.last().map(|criteria| criteria.version),
    })
}

/// A connection's own row, and behind it the rows that its children answered, one deeper.
pub fn nest(
    alloc: Global,
    own: RecursiveRow,
    children: &[Rows<RecursiveRow>],
) -> Result<Rows<RecursiveRow>, AllocError>
    ensures { IfOk result (λ found. found ≡ nest own children.now) }
{
    let mut found = Rows::new(alloc);
    found.add(MOST_NESTED, own)?;
    for child in children {
        add_child(&mut found, child)?;
    }
    Ok(found)
}

/// Adds what a child answered.
fn add_child(found: &mut Rows<RecursiveRow>, child: &Rows<RecursiveRow>) -> Result<(), AllocError>
    ensures { (missing : Bool) (all : Sequence RecursiveRowValue) →
        found.old ≡ cut_beside missing most_nested all →
        let missing_now = missing || lacks_rows child.now in
        OnOk result (found.new ≡ cut_beside missing_now most_nested (all ++ below child.now)) }
{
    found.more = found.more || child.more;
    for row in child.rows.items() {
        add_deeper(found, row)?;
    }
    Ok(())
}

/// Adds a row one deeper. What would be too deep is left out.
fn add_deeper(found: &mut Rows<RecursiveRow>, row: &RecursiveRow) -> Result<(), AllocError>
    ensures { (missing : Bool) (all : Sequence RecursiveRowValue) →
        found.old ≡ cut_beside missing most_nested all →
        let missing_now = missing || reach_too_deep (row.now ∷ []) in
        let all_now = all ++ deepened (row.now ∷ []) in
        OnOk result (found.new ≡ cut_beside missing_now most_nested all_now) }
{
    let Some(depth) = row.depth.checked_add(1) else {
        found.more = true;
        return Ok(());
    };
    found.add(
        MOST_NESTED,
        RecursiveRow {
            depth,
            ..row.copy()?
        },
    )
}
