//! From an entry to its bytes.

ghost use Rattle.std.specs.Prelude.{◌≡◌, ◌≤◌, ℕ, List, [], ◌∷◌, ◌++◌, length, IfOk, OnOk, Some};
ghost use Rattle.std.specs.Int.{w32, to_be_bytes};
ghost use Rattle.nsi_base.specs.Range.{greatest_record};
ghost use Rattle.nsi_primitive.specs.Printable.{IsPrintableAsk, IsPrintableInput, IsPrintableEntry};
ghost use Rattle.nsi_primitive.specs.declared.entry.Input.{Input};
ghost use Rattle.json_primitives.specs.Inputs.{input_spelling, IsInputAgain};
ghost use Rattle.journal_entry.specs.declared.form.Form.{Form};
ghost use Rattle.journal_entry.specs.Spelling.{entry_spelling, tag_of, machine_byte, body_of, entry_of, IsReadAgain, HasParts};

use crate::fields::{push_text, push_u32, push_u64};
use ask_text::print_ask;
use json_primitives::print_input;
use nsi_base::RecordNo;
use nsi_primitive::{Ask, Entry, Input, Machine};
use std::alloc::{AllocError, Global};

/// Writes an entry in the second form.
pub fn write_entry(alloc: Global, entry: &Entry) -> Result<Vec<u8>, AllocError>
    requires { IsPrintableEntry entry.now }
    ensures spelled { IfOk result (λ b. b.items ≡ entry_spelling Form.Two entry.now) }
    ensures again { IfOk result (λ b. (rest : List ℕ) →
        entry_of Form.Two (b.items ++ rest) ≡ Some (entry.now, length b.items)) }
{
    let mut out = Vec::new(alloc);
    push_entry(alloc, &mut out, entry)?;
    Ok(out)
}

/// Puts an entry behind bytes, and gives the JSON of the parcel that it took.
pub(crate) fn push_entry(
    alloc: Global,
    out: &mut Vec<u8>,
    entry: &Entry,
) -> Result<Vec<u8>, AllocError>
    requires { IsPrintableEntry entry.now }
    ensures put { OnOk result (out.new.items ≡ out.old.items ++ entry_spelling Form.Two entry.now) }
    ensures again { OnOk result (IsReadAgain Form.Two entry.now) }
    ensures line { IfOk result (λ line. line.items ≡ input_spelling entry.now.input) }
{
    let line = print_input(alloc, &entry.input)?;
    out.push(tag(&entry.input))?;
    push_u64(out, entry.second.get())?;
    push_body(alloc, out, &entry.input, &line)?;
    Ok(line)
}

fn tag(input: &Input) -> u8
    ensures { result ≡ tag_of input.now }
{
    match input {
        Input::Ask { .. } => 1,
        Input::Got(_) => 2,
        Input::Work { .. } => 3,
        Input::Tick => 4,
        Input::Force { .. } => 5,
        Input::Acked(_) => 6,
    }
}

fn push_body(alloc: Global, out: &mut Vec<u8>, input: &Input, line: &[u8]) -> Result<(), AllocError>
    requires printable { IsPrintableInput input.now }
    requires line { line.now ≡ input_spelling input.now }
    requires again { IsInputAgain input.now }
    ensures put { OnOk result (out.new.items ≡ out.old.items ++ body_of Form.Two input.now) }
    ensures parts { OnOk result (HasParts Form.Two input.now) }
{
    match input {
        Input::Ask { number, ask } => push_ask(alloc, out, *number, ask),
        Input::Got(_) | Input::Acked(_) => push_text(out, line),
        Input::Work { number, machine } => push_work(out, *number, *machine),
        Input::Tick => Ok(()),
        Input::Force { number } => push_u32(out, number.get()),
    }
}

fn push_ask(alloc: Global, out: &mut Vec<u8>, number: u32, ask: &Ask) -> Result<(), AllocError>
    requires { IsPrintableAsk ask.now }
    ensures put { OnOk result
        (out.new.items ≡ out.old.items ++ body_of Form.Two (Input.Ask number ask.now)) }
    ensures parts { OnOk result (HasParts Form.Two (Input.Ask number ask.now)) }
{
    let text = print_ask(alloc, ask)?;
    push_u32(out, number)?;
    push_text(out, &text)
}

fn push_work(out: &mut Vec<u8>, number: RecordNo, machine: Machine) -> Result<(), AllocError>
    ensures put { OnOk result
        (out.new.items ≡ out.old.items ++ (to_be_bytes w32 number ++ machine_byte machine ∷ [])) }
    ensures parts { number ≤ greatest_record }
{
    push_u32(out, number.get())?;
    out.push(machine_byte(machine))?;
    Ok(())
}

fn machine_byte(machine: Machine) -> u8
    ensures { result ≡ machine_byte machine }
{
    match machine {
        Machine::Reserve => 0,
        Machine::Provision => 1,
        Machine::Lifecycle => 2,
    }
}
