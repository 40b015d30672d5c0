//! From a line to the event that it is the print of.

ghost use Rattle.std.specs.Prelude.{◌≡◌, ◌++◌, ◌∷◌, [], length, IfOk, IsErrOf};
ghost use Rattle.std.specs.Str.{bytes_eq};
ghost use Rattle.nsi_primitive.specs.Printable.{IsPrintableHappening};
ghost use Rattle.nsi_primitive.specs.Ranges.{IsRangedEvent};
ghost use Rattle.nsi_primitive.specs.declared.entry.Event.{Event};
ghost use Rattle.trace_text.specs.Lines.{HasLine};
ghost use Rattle.trace_reader.specs.Faults.{Gives};
ghost use Rattle.trace_reader.specs.Moments.{HappensNow, IsOfMoment, IsEventOf};
ghost use Rattle.trace_reader.specs.Pasts.{seconds_of};
ghost use Rattle.trace_reader.specs.Reading.{what_in, event_in};

use crate::fault::EventFault;
use crate::inputs::{acked_in, asked_in, forced_in, got_in, ticked_in, worked_in};
use crate::laws::{names_are_told, texts_are_read_again};
use crate::words::{count_in, cut_word};
use nsi_base::Second;
use nsi_primitive::{Event, Happening};
use std::alloc::Global;
use stp_topology::Topology;
use trace_text::print_event;

/// Reads the line of an event, which is given without its line feed, at the moment at which the agents have these seconds
/// and so many asks came. A tick may bring any second; the number of an ask isn't printed, nor is the second of what is
/// no tick.
pub fn read_event(
    alloc: Global,
    topology: &Topology,
    line: &[u8],
    now: &[Second],
    asks: u32,
) -> Result<Event, EventFault>
    requires seconds { length now.now ≡ length topology.now.agents }
    ensures read { IfOk result (λ e. IsEventOf topology.now (seconds_of now.now) asks line.now e) }
    ensures only { IfOk result (λ read. (e : Event) → IsRangedEvent e
        → IsEventOf topology.now (seconds_of now.now) asks line.now e → e ≡ read) }
    ensures refused { IsErrOf result EventFault.NotAnEvent → (e : Event) → IsRangedEvent e
        → IsEventOf topology.now (seconds_of now.now) asks line.now e → ⊥ }
{
    names_are_told(topology);
    texts_are_read_again();
    let event = event_in(alloc, topology, line, now, asks)?;
    let print = print_event(alloc, topology, &event)?;
    if is_line(&print, line) {
        Ok(event)
    } else {
        Err(EventFault::NotAnEvent)
    }
}

/// Whether a text is the line and a line feed.
#[tactic(auto, using(crate::proofs::Exact::with_feed, crate::proofs::Exact::other_end))]
fn is_line(text: &[u8], line: &[u8]) -> bool
    ensures { result ≡ bytes_eq text.now (line.now ++ 10 ∷ []) }
{
    let Some((last, front)) = text.split_last() else {
        return false;
    };
    if *last != b'\n' {
        return false;
    }
    front == line
}

#[tactic(auto, unfolding(crate::specs::Reading::event_in))]
fn event_in(
    alloc: Global,
    topology: &Topology,
    line: &[u8],
    now: &[Second],
    asks: u32,
) -> Result<Event, EventFault>
    requires seconds { length now.now ≡ length topology.now.agents }
    ensures gives { let seconds = seconds_of now.now in
        Gives (λ e. e) result (event_in topology.now seconds asks line.now) }
    ensures has_line { IfOk result (HasLine topology.now) }
    ensures of_moment { IfOk result (IsOfMoment (seconds_of now.now) asks) }
{
    let (verb, rest) = cut_word(line)?;
    let (name, rest) = cut_word(rest)?;
    let Some(agent) = topology.agent_of(name) else {
        return Err(EventFault::NotAnEvent);
    };
    let second = now[agent.get() as usize];
    let what = what_in(alloc, verb, second, asks, rest)?;
    Ok(Event { agent, what })
}

#[tactic(auto, unfolding(crate::specs::Reading::what_in))]
fn what_in(
    alloc: Global,
    verb: &[u8],
    now: Second,
    asks: u32,
    rest: &[u8],
) -> Result<Happening, EventFault>
    ensures gives { Gives (λ w. w) result (what_in verb.now now asks rest.now) }
    ensures printable { IfOk result IsPrintableHappening }
    ensures happens_now { IfOk result (HappensNow now asks) }
{
    if verb == b"tick".as_slice() {
        ticked_in(rest)
    } else if verb == b"ask".as_slice() {
        asked_in(alloc, now, asks, rest)
    } else if verb == b"got".as_slice() {
        got_in(alloc, now, rest)
    } else if verb == b"work".as_slice() {
        worked_in(now, rest)
    } else if verb == b"force".as_slice() {
        forced_in(now, rest)
    } else if verb == b"acked".as_slice() {
        acked_in(alloc, now, rest)
    } else if verb == b"sync".as_slice() {
        let count = count_in(rest)?;
        Ok(Happening::Sync { count })
    } else if verb == b"restart".as_slice() {
        let count = count_in(rest)?;
        Ok(Happening::Restart { count })
    } else {
        Err(EventFault::NotAnEvent)
    }
}
