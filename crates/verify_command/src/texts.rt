//! What is written of a trace.

ghost use Rattle.std.specs.Prelude.{◌≡◌, IfOk};
ghost use Rattle.verify_command.specs.Texts.{not_line, run_line, verdict_line, why_text};

use fault_lines::as_line;
use std::alloc::{AllocError, Global};
use trace_verify::{Verdict, Why};

fn why_text(why: Why) -> &'static str
    ensures { result.now ≡ why_text why }
{
    match why {
        Why::Form => "Form",
        Why::NotAllowed => "NotAllowed",
        Why::End => "End",
    }
}

/// `run` and the number of events, or `not`, the number of the line and why.
pub fn verdict_line(alloc: Global, verdict: Verdict) -> Result<Vec<u8>, AllocError>
    ensures { IfOk result (λ text. text.items ≡ verdict_line verdict) }
{
    match verdict {
        Verdict::Run { events } => run_line(alloc, events),
        Verdict::Not { line, why } => not_line(alloc, u64::from(line), why),
    }
}

fn run_line(alloc: Global, events: u64) -> Result<Vec<u8>, AllocError>
    ensures { IfOk result (λ text. text.items ≡ run_line events) }
{
    let mut text = Vec::new(alloc);
    text.extend_from_slice(b"run ")?;
    let digits = events.to_string(alloc)?;
    text.extend_from_slice(digits.as_bytes())?;
    as_line(text)
}

fn not_line(alloc: Global, line: u64, why: Why) -> Result<Vec<u8>, AllocError>
    ensures { IfOk result (λ text. text.items ≡ not_line line why) }
{
    let mut text = Vec::new(alloc);
    text.extend_from_slice(b"not ")?;
    let digits = line.to_string(alloc)?;
    text.extend_from_slice(digits.as_bytes())?;
    text.extend_from_slice(b" ")?;
    text.extend_from_slice(why_text(why).as_bytes())?;
    as_line(text)
}
