//! From events to their lines.

ghost use Rattle.std.specs.Prelude.{◌≡◌, ◌<◌, ◌++◌, ◌∷◌, All, codes, decimal, length, IfOk, OnOk};
ghost use Rattle.nsi_base.specs.Words.{behind};
ghost use Rattle.nsi_primitive.specs.Ids.{id_text};
ghost use Rattle.nsi_primitive.specs.Printable.{IsPrintable, IsPrintableAsk, IsPrintableEntry, IsPrintableHappening};
ghost use Rattle.nsi_primitive.specs.declared.message.Parcel.{Parcel};
ghost use Rattle.ask_text.specs.Asks.{ask_text};
ghost use Rattle.json_primitives.specs.Spelling.{spelling, parcel_spelling};
ghost use Rattle.trace_text.specs.Spelled.{what_spelling};
ghost use Rattle.trace_text.specs.Lines.{HasLine, answer_text, answer_words, input_verb, input_words, line_of, text_of, verb_of, what_words};

use crate::spelled::SpelledEvent;
use ask_text::print_ask;
use json_primitives::{push_ack as put_ack, push_message as put_message};
use nsi_primitive::{
    Ask, AskAnswer, Entry, Event, Happening, Id, Identity, Input, Message, print_id,
};
use std::alloc::{AllocError, Global};
use stp_topology::Topology;

/// Writes the lines of events, one after another.
pub fn print_events(
    alloc: Global,
    topology: &Topology,
    events: &[Event],
) -> Result<Vec<u8>, AllocError>
    requires { All (HasLine topology.now) events.now }
    ensures spelled { IfOk result (λ bytes. bytes.items ≡ text_of topology.now events.now) }
{
    let mut text = Vec::new(alloc);
    for event in events {
        push_event(alloc, topology, event, &mut text)?;
    }
    Ok(text)
}

/// The same of events that have the JSON of what they took by them.
pub fn print_spelled(
    alloc: Global,
    topology: &Topology,
    events: &[SpelledEvent],
) -> Result<Vec<u8>, AllocError>
    requires { All (HasLine topology.now) events.now }
    ensures spelled { IfOk result (λ bytes. bytes.items ≡ text_of topology.now events.now) }
{
    let mut text = Vec::new(alloc);
    for event in events {
        push_spelled(alloc, topology, event, &mut text)?;
    }
    Ok(text)
}

/// Writes the line of an event, and its line feed.
pub fn print_event(alloc: Global, topology: &Topology, event: &Event) -> Result<Vec<u8>, AllocError>
    requires { HasLine topology.now event.now }
    ensures spelled { IfOk result (λ bytes. bytes.items ≡ line_of topology.now event.now) }
{
    let mut text = Vec::new(alloc);
    push_event(alloc, topology, event, &mut text)?;
    Ok(text)
}

/// Appends the line of an event, and its line feed.
#[tactic(auto, unfolding(crate::specs::Lines::line_of))]
pub fn push_event(
    alloc: Global,
    topology: &Topology,
    event: &Event,
    text: &mut Vec<u8>,
) -> Result<(), AllocError>
    requires { HasLine topology.now event.now }
    ensures put { OnOk result
        (text.new.items ≡ text.old.items ++ line_of topology.now event.now) }
{
    text.extend_from_slice(verb(&event.what).as_bytes())?;
    push_word(text, topology.name(event.agent).bytes())?;
    push_what(alloc, text, &event.what)?;
    text.push(b'\n')?;
    Ok(())
}

fn push_spelled(
    alloc: Global,
    topology: &Topology,
    spelled: &SpelledEvent,
    text: &mut Vec<u8>,
) -> Result<(), AllocError>
    requires { HasLine topology.now spelled.now }
    ensures put { OnOk result
        (text.new.items ≡ text.old.items ++ line_of topology.now spelled.now) }
{
    let line = spelled.line();
    if line.is_empty() {
        return push_event(alloc, topology, spelled.event(), text);
    }
    push_line(topology, spelled.event(), line, text)
}

/// The same of an event that took a parcel, whose JSON is this.
#[tactic(auto, unfolding(crate::specs::Lines::line_of), using(crate::proofs::Words::words_are))]
fn push_line(
    topology: &Topology,
    event: &Event,
    line: &[u8],
    text: &mut Vec<u8>,
) -> Result<(), AllocError>
    requires has_line { HasLine topology.now event.now }
    requires some { 0 < length line.now }
    requires spelled { line.now ≡ what_spelling event.now.what }
    ensures put { OnOk result
        (text.new.items ≡ text.old.items ++ line_of topology.now event.now) }
{
    text.extend_from_slice(verb(&event.what).as_bytes())?;
    push_word(text, topology.name(event.agent).bytes())?;
    push_word(text, line)?;
    text.push(b'\n')?;
    Ok(())
}

fn verb(what: &Happening) -> &'static str
    ensures { result.now ≡ verb_of what.now }
{
    match what {
        Happening::Entry { entry, .. } => input_verb(&entry.input),
        Happening::Sync { .. } => "sync",
        Happening::Restart { .. } => "restart",
    }
}

fn input_verb(input: &Input) -> &'static str
    ensures { result.now ≡ input_verb input.now }
{
    match input {
        Input::Ask { .. } => "ask",
        Input::Got(_) => "got",
        Input::Work { .. } => "work",
        Input::Tick => "tick",
        Input::Force { .. } => "force",
        Input::Acked(_) => "acked",
    }
}

fn push_word(text: &mut Vec<u8>, word: &[u8]) -> Result<(), AllocError>
    ensures { OnOk result (text.new.items ≡ text.old.items ++ (32 ∷ word.now)) }
{
    text.push(b' ')?;
    text.extend_from_slice(word)?;
    Ok(())
}

fn push_count(text: &mut Vec<u8>, n: u64) -> Result<(), AllocError>
    ensures { OnOk result (text.new.items ≡ text.old.items ++ (32 ∷ decimal n)) }
{
    let mut digits = itoa::Buffer::new();
    push_word(text, digits.format(n).as_bytes())
}

fn push_what(alloc: Global, text: &mut Vec<u8>, what: &Happening) -> Result<(), AllocError>
    requires { IsPrintableHappening what.now }
    ensures { OnOk result (text.new.items ≡ text.old.items ++ behind (what_words what.now)) }
{
    match what {
        Happening::Entry { entry, answer } => push_taken(alloc, text, entry, answer),
        Happening::Sync { count } | Happening::Restart { count } => { push_count(text, *count) }
    }
}

fn push_taken(
    alloc: Global,
    text: &mut Vec<u8>,
    entry: &Entry,
    answer: &Option<AskAnswer>,
) -> Result<(), AllocError>
    requires { IsPrintableEntry entry.now }
    ensures { OnOk result (text.new.items ≡ text.old.items
        ++ behind (input_words entry.now.second entry.now.input answer.now)) }
{
    match &entry.input {
        Input::Ask { ask, .. } => {
            push_answer(alloc, text, answer)?;
            push_ask(alloc, text, ask)
        }
        Input::Got(message) => push_message(alloc, text, message),
        Input::Work { number, machine } => {
            push_count(text, u64::from(number.get()))?;
            push_word(text, machine.text().as_bytes())
        }
        Input::Tick => push_count(text, entry.second.get()),
        Input::Force { number } => push_count(text, u64::from(number.get())),
        Input::Acked(identity) => push_ack(alloc, text, identity),
    }
}

fn push_answer(
    alloc: Global,
    text: &mut Vec<u8>,
    answer: &Option<AskAnswer>,
) -> Result<(), AllocError>
    ensures { OnOk result (text.new.items ≡ text.old.items ++ behind (answer_words answer.now)) }
{
    match answer {
        None => Ok(()),
        Some(answer) => push_given(alloc, text, answer),
    }
}

#[tactic(auto, unfolding(crate::specs::Lines::answer_text))]
fn push_given(alloc: Global, text: &mut Vec<u8>, answer: &AskAnswer) -> Result<(), AllocError>
    ensures { OnOk result (text.new.items ≡ text.old.items ++ (32 ∷ answer_text answer.now)) }
{
    match answer {
        AskAnswer::Sent => push_word(text, b"sent"),
        AskAnswer::NoId => push_word(text, b"noid"),
        AskAnswer::Outstanding(correlation) => push_outstanding(alloc, text, *correlation),
    }
}

fn push_outstanding(alloc: Global, text: &mut Vec<u8>, correlation: Id) -> Result<(), AllocError>
    ensures { OnOk result (text.new.items
        ≡ text.old.items ++ (32 ∷ (codes "outstanding=" ++ id_text correlation))) }
{
    let id = print_id(alloc, correlation)?;
    push_word(text, b"outstanding=")?;
    text.extend_from_slice(id.bytes())?;
    Ok(())
}

fn push_ask(alloc: Global, text: &mut Vec<u8>, ask: &Ask) -> Result<(), AllocError>
    requires { IsPrintableAsk ask.now }
    ensures { OnOk result (text.new.items ≡ text.old.items ++ (32 ∷ ask_text ask.now)) }
{
    let words = print_ask(alloc, ask)?;
    push_word(text, &words)
}

fn push_message(alloc: Global, text: &mut Vec<u8>, message: &Message) -> Result<(), AllocError>
    requires { IsPrintable message.now }
    ensures { OnOk result (text.new.items ≡ text.old.items ++ (32 ∷ spelling message.now)) }
{
    text.push(b' ')?;
    put_message(alloc, message, text)
}

fn push_ack(alloc: Global, text: &mut Vec<u8>, identity: &Identity) -> Result<(), AllocError>
    ensures { OnOk result (text.new.items
        ≡ text.old.items ++ (32 ∷ parcel_spelling (Parcel.Ack identity.now))) }
{
    text.push(b' ')?;
    put_ack(alloc, identity, text)
}
