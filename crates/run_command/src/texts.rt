//! The last line of a run.

ghost use Rattle.std.specs.Prelude.{◌≡◌, ◌++◌, decimal, IfOk, OnOk};
ghost use Rattle.run_command.specs.Runs.{closing_line, settled_line, summary_line};

use fault_lines::as_line;
use run_totals::{Report, Totals};
use std::alloc::{AllocError, Global};

/// `settled`, and how many events the run has.
fn settled_line(alloc: Global, events: u64) -> Result<Vec<u8>, AllocError>
    ensures { IfOk result (λ text. text.items ≡ settled_line events) }
{
    let mut text = Vec::new(alloc);
    push_number(alloc, &mut text, b"settled ", events)?;
    as_line(text)
}

fn push_number(
    alloc: Global,
    text: &mut Vec<u8>,
    name: &[u8],
    number: u64,
) -> Result<(), AllocError>
    ensures { OnOk result (text.new.items ≡ text.old.items ++ name.now ++ decimal number) }
{
    text.extend_from_slice(name)?;
    let digits = number.to_string(alloc)?;
    text.extend_from_slice(digits.as_bytes())?;
    Ok(())
}

/// `summary`, and the numbers of the run, each behind its name.
fn summary_line(alloc: Global, totals: Totals) -> Result<Vec<u8>, AllocError>
    ensures { IfOk result (λ text. text.items ≡ summary_line totals) }
{
    let mut text = Vec::new(alloc);
    push_number(alloc, &mut text, b"summary events ", totals.events)?;
    push_number(alloc, &mut text, b" confirmed ", totals.confirmed)?;
    push_number(alloc, &mut text, b" committed ", totals.committed)?;
    push_number(alloc, &mut text, b" failed ", totals.failed)?;
    as_line(text)
}

/// The last line of a run.
pub fn closing_line(alloc: Global, report: Report, totals: Totals) -> Result<Vec<u8>, AllocError>
    ensures { IfOk result (λ text. text.items ≡ closing_line report totals) }
{
    match report {
        Report::Trace => settled_line(alloc, totals.events),
        Report::Summary => summary_line(alloc, totals),
    }
}
