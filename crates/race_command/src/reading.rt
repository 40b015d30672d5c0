//! The script of a race.

ghost use Rattle.std.specs.Prelude.{◌≡◌, ◌≤◌, ◌+◌, ◌||◌, ℕ, false, length, map, IfOk, Some, Result, Err};
ghost use Rattle.nsi_base.specs.Range.{greatest_input};
ghost use Rattle.nsi_base.specs.Lines.{lines_of};
ghost use Rattle.nsi_script.specs.Text.{Reads, is_skipped};
ghost use Rattle.nsi_script.specs.declared.fault.ScriptFault.{ScriptFault as AFault};
ghost use Rattle.nsi_script.specs.declared.fault.ScriptFault.TheVariants.{Word};
ghost use Rattle.nsi_script.specs.declared.fault.ScriptRefusal.TheVariants.{Fault};
ghost use Rattle.nsi_script.specs.declared.script.Script.{Script as AScript};
ghost use Rattle.race_run.specs.Scripts.{IsRace};
ghost use Rattle.race_command.specs.Lines.{names_caller, is_allowed, is_at, is_race_line, begins, first_strange, refused_at, race_script_of};

use nsi_base::line::cut_line;
use nsi_base::words::words;
use nsi_base::{AgentNo, Blanks};
use nsi_script::{Script, ScriptFault, ScriptRefusal, read_script};
use race_run::is_caller;
use std::alloc::{AllocError, Global};
use stp_topology::Topology;

fn is_skipped(line: &[u8]) -> bool
    ensures { result ≡ is_skipped line.now }
{
    line.is_empty() || line[0] == b'#'
}

/// Whether the first word is the name of a requester of the provider.
fn names_caller(topology: &Topology, provider: AgentNo, words: &[&[u8]]) -> bool
    ensures { result ≡ names_caller topology.now provider (map (λ w. w.now) words.now) }
{
    match words.first() {
        Some(name) => is_caller(topology, provider, topology.agent_of(name)),
        None => false,
    }
}

fn is_allowed(topology: &Topology, provider: AgentNo, has_begun: bool, words: &[&[u8]]) -> bool
    ensures { result
        ≡ is_allowed topology.now provider has_begun (map (λ w. w.now) words.now) }
{
    match words.split_first() {
        None => false,
        Some((verb, args)) => {
            if *verb == b"ask".as_slice() {
                names_caller(topology, provider, args)
            } else {
                *verb == b"at".as_slice() && !has_begun
            }
        }
    }
}

fn is_at(words: &[&[u8]]) -> bool
    ensures { result ≡ is_at (map (λ w. w.now) words.now) }
{
    match words.first() {
        Some(verb) => *verb == b"at".as_slice(),
        None => false,
    }
}

fn either(one: bool, other: bool) -> bool
    ensures { result ≡ one || other }
{
    one || other
}

/// What a line is to a race.
#[derive(Clone, Copy, Debug, PartialEq, Eq)]
struct Seen {
    may_stand: bool,
    begins: bool,
}

fn look_at(
    alloc: Global,
    topology: &Topology,
    provider: AgentNo,
    has_begun: bool,
    line: &[u8],
) -> Result<Seen, AllocError>
    ensures may_stand { IfOk result
        (λ s. s.may_stand ≡ is_race_line topology.now provider has_begun line.now) }
    ensures begins { IfOk result (λ s. s.begins ≡ begins line.now) }
{
    if is_skipped(line) {
        return Ok(Seen {
            may_stand: true,
            begins: false,
        });
    }
    let words = words(alloc, Blanks::SpaceOrTab, line)?;
    Ok(Seen {
        may_stand: is_allowed(topology, provider, has_begun, &words),
        begins: is_at(&words),
    })
}

/// The number of the first line that may not stand in a race.
fn first_strange(
    alloc: Global,
    topology: &Topology,
    provider: AgentNo,
    first_line: u32,
    text: &[u8],
) -> Result<Option<u32>, AllocError>
    requires text { length text.now ≤ greatest_input }
    requires first_line { first_line ≤ greatest_input + 1 }
    ensures { IfOk result (λ o.
        o ≡ first_strange topology.now provider false first_line (lines_of text.now)) }
{
    let mut rest = text;
    let mut number = first_line;
    let mut has_begun = false;
    'lines: while 0 < rest.len() {
        let (line, behind) = cut_line(rest);
        let seen = look_at(alloc, topology, provider, has_begun, line)?;
        if !seen.may_stand {
            return Ok(Some(number));
        }
        let begun = either(has_begun, seen.begins);
        has_begun = begun;
        rest = behind;
        number += 1;
    }
    Ok(None)
}

/// What is told of a text with a line that may not stand in a race: that line, where no earlier one is faulty.
fn strange_at(number: u32, read: &Result<Script, ScriptRefusal>) -> ScriptRefusal
    ensures { (whole : Result AScript (ℕ × AFault)) → Reads read.now whole →
        Reads (Err result) (refused_at (Some number) whole) }
{
    match read {
        Err(ScriptRefusal::NoMemory) => ScriptRefusal::NoMemory,
        Err(ScriptRefusal::Fault { line, fault }) => {
            if *line < number {
                ScriptRefusal::Fault {
                    line: *line,
                    fault: *fault,
                }
            } else {
                word_at(number)
            }
        }
        Ok(_) => word_at(number),
    }
}

/// A line is no form of a line.
fn word_at(line: u32) -> ScriptRefusal
    ensures { result ≡ Fault line Word }
{
    ScriptRefusal::Fault {
        line,
        fault: ScriptFault::Word,
    }
}

/// The script of a race that a text is: nothing but one `at` and asks of requesters of the provider. Any other line is refused as
/// a word. `first_line` is the number of the text's first line.
pub(crate) fn read_race(
    alloc: Global,
    text: &[u8],
    first_line: u32,
    topology: &Topology,
    provider: AgentNo,
) -> Result<Script, ScriptRefusal>
    requires text { length text.now ≤ greatest_input }
    requires first_line { first_line ≤ greatest_input + 1 }
    ensures reads { Reads result
        (race_script_of topology.now provider first_line text.now) }
    ensures race { IfOk result (λ s. IsRace topology.now provider s) }
{
    let Ok(strange) = first_strange(alloc, topology, provider, first_line, text) else {
        return Err(ScriptRefusal::NoMemory);
    };
    let read = read_script(alloc, text, first_line, topology);
    match strange {
        None => read,
        Some(number) => Err(strange_at(number, &read)),
    }
}
