//! The texts of a race.

ghost use Rattle.std.specs.Prelude.{◌≡◌, ◌++◌, ◌∷◌, [], All, length, codes, decimal, IfOk, IfSome, OnOk};
ghost use Rattle.trace_text.specs.Lines.{HasLine, text_of};
ghost use Rattle.race_run.specs.Compared.{IsOfNetwork};
ghost use Rattle.race_command.specs.Ends.{raced_line, line_or_none, differ_lines};

use fault_lines::as_line;
use nsi_primitive::Event;
use race_run::Difference;
use std::alloc::{AllocError, Global};
use stp_topology::Topology;
use trace_text::{print_events, push_event};

/// Appends a word and a number.
fn push_number(
    alloc: Global,
    text: &mut Vec<u8>,
    word: &[u8],
    number: u64,
) -> Result<(), AllocError>
    ensures { OnOk result (text.new.items ≡ text.old.items ++ word.now ++ decimal number) }
{
    text.extend_from_slice(word)?;
    let digits = number.to_string(alloc)?;
    text.extend_from_slice(digits.as_bytes())?;
    Ok(())
}

/// `raced`, how many events there were, and how many connections are committed.
fn raced_line(alloc: Global, events: u64, committed: u64) -> Result<Vec<u8>, AllocError>
    ensures { IfOk result (λ text. text.items ≡ raced_line events committed) }
{
    let mut text = Vec::new(alloc);
    push_number(alloc, &mut text, b"raced ", events)?;
    push_number(alloc, &mut text, b" committed ", committed)?;
    as_line(text)
}

/// The lines of events, and the line that ends a race behind them.
pub(crate) fn race_text(
    alloc: Global,
    topology: &Topology,
    events: &[Event],
    committed: u64,
) -> Result<Vec<u8>, AllocError>
    requires { All (HasLine topology.now) events.now }
    ensures { IfOk result (λ text. text.items
        ≡ text_of topology.now events.now ++ raced_line (length events.now) committed) }
{
    let mut text = print_events(alloc, topology, events)?;
    let mut last = raced_line(alloc, events.len() as u64, committed)?;
    text.append(&mut last)?;
    Ok(text)
}

/// Appends the line of an event, or that there is none.
fn push_line(
    alloc: Global,
    topology: &Topology,
    event: &Option<Event>,
    text: &mut Vec<u8>,
) -> Result<(), AllocError>
    requires { IfSome event.now (HasLine topology.now) }
    ensures { OnOk result
        (text.new.items ≡ text.old.items ++ line_or_none topology.now event.now) }
{
    match event {
        Some(event) => push_event(alloc, topology, event, text),
        None => push_none(text),
    }
}

fn push_none(text: &mut Vec<u8>) -> Result<(), AllocError>
    ensures { OnOk result (text.new.items ≡ text.old.items ++ (codes "none" ++ 10 ∷ [])) }
{
    text.extend_from_slice(b"none\n")?;
    Ok(())
}

/// `fault differ` with the place, and the event that was kept and the one that was found there.
pub(crate) fn differ_lines(
    alloc: Global,
    topology: &Topology,
    difference: &Difference,
) -> Result<Vec<u8>, AllocError>
    requires { IsOfNetwork topology.now difference.now }
    ensures { IfOk result (λ text. text.items ≡ differ_lines topology.now difference.now) }
{
    let mut text = Vec::new(alloc);
    push_number(alloc, &mut text, b"fault differ ", difference.place)?;
    let mut text = as_line(text)?;
    push_line(alloc, topology, &difference.kept, &mut text)?;
    push_line(alloc, topology, &difference.found, &mut text)?;
    Ok(text)
}
