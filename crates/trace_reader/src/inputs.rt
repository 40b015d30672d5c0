//! What stands behind the name of an agent that took something.

ghost use Rattle.std.specs.Prelude.{◌≡◌, ℕ, IfOk, None};
ghost use Rattle.nsi_primitive.specs.Printable.{IsPrintable, IsPrintableAsk, IsPrintableHappening};
ghost use Rattle.ask_text.specs.Reading.{ask_of};
ghost use Rattle.json_primitives.specs.Lines.{object_of};
ghost use Rattle.trace_reader.specs.Faults.{Gives};
ghost use Rattle.trace_reader.specs.Moments.{HappensNow};
ghost use Rattle.trace_reader.specs.Reading.{if_message, if_ack, taken, asked_in, got_in, acked_in, worked_in, forced_in, ticked_in};

use crate::fault::EventFault;
use crate::words::{answer_in, cut_word, machine_in, record_in, second_in};
use ask_text::{AskTextFault, read_ask};
use json_primitives::{LineFault, read_object};
use nsi_base::Second;
use nsi_primitive::{Ask, Entry, Happening, Identity, Input, Message, Parcel};
use std::alloc::Global;

#[tactic(auto, unfolding(crate::specs::Reading::ticked_in))]
pub fn ticked_in(rest: &[u8]) -> Result<Happening, EventFault>
    ensures gives { Gives (λ w. w) result (ticked_in rest.now) }
    ensures printable { IfOk result IsPrintableHappening }
    ensures happens_now { (now asks : ℕ) → IfOk result (HappensNow now asks) }
{
    let second = second_in(rest)?;
    Ok(taken(second, Input::Tick))
}

fn ask_in(alloc: Global, text: &[u8]) -> Result<Ask, EventFault>
    ensures gives { Gives (λ a. a) result (ask_of text.now) }
    ensures printable { IfOk result IsPrintableAsk }
{
    match read_ask(alloc, text) {
        Ok(ask) => Ok(ask),
        Err(AskTextFault::NotAnAsk) => Err(EventFault::NotAnEvent),
        Err(AskTextFault::NoMemory) => Err(EventFault::NoMemory),
    }
}

#[tactic(auto, unfolding(crate::specs::Reading::asked_in))]
pub fn asked_in(alloc: Global, now: Second, asks: u32, rest: &[u8]) -> Result<Happening, EventFault>
    ensures gives { Gives (λ w. w) result (asked_in now asks rest.now) }
    ensures printable { IfOk result IsPrintableHappening }
    ensures happens_now { IfOk result (HappensNow now asks) }
{
    let (answer, text) = cut_word(rest)?;
    let answer = answer_in(answer)?;
    let ask = ask_in(alloc, text)?;
    Ok(Happening::Entry {
        entry: Entry {
            second: now,
            input: Input::Ask { number: asks, ask },
        },
        answer: Some(answer),
    })
}

fn message_in(alloc: Global, text: &[u8]) -> Result<Message, EventFault>
    ensures gives { Gives (λ m. m) result (if_message (object_of text.now)) }
    ensures printable { IfOk result IsPrintable }
{
    match read_object(alloc, text) {
        Ok(Parcel::Message(message)) => Ok(message),
        Ok(Parcel::Ack(_)) => Err(EventFault::NotAnEvent),
        Err(LineFault::NoMemory) => Err(EventFault::NoMemory),
        Err(_) => Err(EventFault::NotAnEvent),
    }
}

fn ack_in(alloc: Global, text: &[u8]) -> Result<Identity, EventFault>
    ensures { Gives (λ i. i) result (if_ack (object_of text.now)) }
{
    match read_object(alloc, text) {
        Ok(Parcel::Message(_)) => Err(EventFault::NotAnEvent),
        Ok(Parcel::Ack(identity)) => Ok(identity),
        Err(LineFault::NoMemory) => Err(EventFault::NoMemory),
        Err(_) => Err(EventFault::NotAnEvent),
    }
}

#[tactic(auto, unfolding(crate::specs::Reading::got_in))]
pub fn got_in(alloc: Global, now: Second, rest: &[u8]) -> Result<Happening, EventFault>
    ensures gives { Gives (λ w. w) result (got_in now rest.now) }
    ensures printable { IfOk result IsPrintableHappening }
    ensures happens_now { (asks : ℕ) → IfOk result (HappensNow now asks) }
{
    let message = message_in(alloc, rest)?;
    Ok(taken(now, Input::Got(message)))
}

#[tactic(auto, unfolding(crate::specs::Reading::acked_in))]
pub fn acked_in(alloc: Global, now: Second, rest: &[u8]) -> Result<Happening, EventFault>
    ensures gives { Gives (λ w. w) result (acked_in now rest.now) }
    ensures printable { IfOk result IsPrintableHappening }
    ensures happens_now { (asks : ℕ) → IfOk result (HappensNow now asks) }
{
    let identity = ack_in(alloc, rest)?;
    Ok(taken(now, Input::Acked(identity)))
}

#[tactic(auto, unfolding(crate::specs::Reading::worked_in))]
pub fn worked_in(now: Second, rest: &[u8]) -> Result<Happening, EventFault>
    ensures gives { Gives (λ w. w) result (worked_in now rest.now) }
    ensures printable { IfOk result IsPrintableHappening }
    ensures happens_now { (asks : ℕ) → IfOk result (HappensNow now asks) }
{
    let (number, machine) = cut_word(rest)?;
    let number = record_in(number)?;
    let machine = machine_in(machine)?;
    Ok(taken(now, Input::Work { number, machine }))
}

#[tactic(auto, unfolding(crate::specs::Reading::forced_in))]
pub fn forced_in(now: Second, rest: &[u8]) -> Result<Happening, EventFault>
    ensures gives { Gives (λ w. w) result (forced_in now rest.now) }
    ensures printable { IfOk result IsPrintableHappening }
    ensures happens_now { (asks : ℕ) → IfOk result (HappensNow now asks) }
{
    let number = record_in(rest)?;
    Ok(taken(now, Input::Force { number }))
}

/// What an agent took, where it was no ask.
fn taken(second: Second, input: Input) -> Happening
    ensures { result ≡ taken second input None }
{
    Happening::Entry {
        entry: Entry { second, input },
        answer: None,
    }
}
