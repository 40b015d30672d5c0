//! The words of a line.

ghost use Rattle.std.specs.Prelude.{◌≡◌, ◌≤◌, ◌<◌, length, IfOk, IfSome};
ghost use Rattle.nsi_base.specs.Digits.{number_of};
ghost use Rattle.nsi_base.specs.Range.{greatest_second, greatest_record};
ghost use Rattle.nsi_primitive.specs.Ids.{id_from_text};
ghost use Rattle.nsi_primitive.specs.States.{machine_named};
ghost use Rattle.trace_reader.specs.Faults.{Gives};
ghost use Rattle.trace_reader.specs.Reading.{space_at, cut_word, outstanding_in, answer_in, count_in};

use crate::fault::EventFault;
use nsi_base::digits::number_of;
use nsi_base::{RecordNo, Second};
use nsi_primitive::{AskAnswer, Id, Machine, read_id};

fn space_at(text: &[u8]) -> Option<usize>
    ensures value { result ≡ space_at text.now }
    ensures within { IfSome result (λ i. i < length text.now) }
{
    text.iter().position(|b| *b == b' ')
}

/// What stands before the first space, and what behind it.
#[tactic(auto, unfolding(crate::specs::Reading::cut_word))]
pub fn cut_word(text: &[u8]) -> Result<(&[u8], &[u8]), EventFault>
    ensures { Gives (λ x. (x.0.now, x.1.now)) result (cut_word text.now) }
{
    match space_at(text) {
        Some(i) => Ok((&text[..i], &text[i + 1..])),
        None => Err(EventFault::NotAnEvent),
    }
}

fn number_in(high: u64, word: &[u8]) -> Result<u64, EventFault>
    ensures gives { Gives (λ n. n) result (number_of 0 high word.now) }
    ensures in_range { IfOk result (λ n. n ≤ high) }
{
    match number_of(0, high, word) {
        Some(n) => Ok(n),
        None => Err(EventFault::NotAnEvent),
    }
}

pub fn second_in(word: &[u8]) -> Result<Second, EventFault>
    ensures { Gives (λ n. n) result (number_of 0 greatest_second word.now) }
{
    let n = number_in(Second::MAX, word)?;
    match Second::new(n) {
        Some(second) => Ok(second),
        None => unreachable!(),
    }
}

pub fn record_in(word: &[u8]) -> Result<RecordNo, EventFault>
    ensures { Gives (λ n. n) result (number_of 0 greatest_record word.now) }
{
    let n = number_in(u64::from(RecordNo::MAX), word)?;
    match RecordNo::new(n as u32) {
        Some(record) => Ok(record),
        None => unreachable!(),
    }
}

pub fn count_in(word: &[u8]) -> Result<u64, EventFault>
    ensures { Gives (λ n. n) result (count_in word.now) }
{
    number_in(u64::MAX, word)
}

pub fn machine_in(word: &[u8]) -> Result<Machine, EventFault>
    ensures { Gives (λ m. m) result (machine_named word.now) }
{
    match Machine::named(word) {
        Some(machine) => Ok(machine),
        None => Err(EventFault::NotAnEvent),
    }
}

fn id_in(word: &[u8]) -> Result<Id, EventFault>
    ensures { Gives (λ id. id) result (id_from_text word.now) }
{
    match read_id(word) {
        Ok(id) => Ok(id),
        Err(_) => Err(EventFault::NotAnEvent),
    }
}

#[tactic(auto, unfolding(crate::specs::Reading::outstanding_in))]
fn outstanding_in(word: &[u8]) -> Result<AskAnswer, EventFault>
    ensures { Gives (λ a. a) result (outstanding_in word.now) }
{
    if !word.starts_with(b"outstanding=") {
        return Err(EventFault::NotAnEvent);
    }
    let correlation = id_in(&word[12..])?;
    Ok(AskAnswer::Outstanding(correlation))
}

/// What was answered to an ask.
#[tactic(auto, unfolding(crate::specs::Reading::answer_in))]
pub fn answer_in(word: &[u8]) -> Result<AskAnswer, EventFault>
    ensures { Gives (λ a. a) result (answer_in word.now) }
{
    if word == b"sent".as_slice() {
        Ok(AskAnswer::Sent)
    } else if word == b"noid".as_slice() {
        Ok(AskAnswer::NoId)
    } else {
        outstanding_in(word)
    }
}
