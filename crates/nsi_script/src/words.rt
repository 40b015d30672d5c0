//! Names, numbers and what else the words of a line are.

ghost use Rattle.std.specs.Prelude.{◌≡◌, ◌≤◌, length, map, IfOk, IfSome, IsTrue};
ghost use Rattle.nsi_base.specs.Bytes.{is_name};
ghost use Rattle.nsi_base.specs.Range.{greatest_second, greatest_record};
ghost use Rattle.nsi_primitive.specs.Printable.{IsPrintableAsk};
ghost use Rattle.nsi_script.specs.Faults.{Gives};
ghost use Rattle.nsi_script.specs.Words.{name_form, number_form, ask_form, parcel_form, image_form};

use crate::fault::{LineRefusal, ScriptFault};
use agent_link::ParcelKind;
use ask_text::{AskTextFault, ask_in};
use nsi_base::digits::number_of;
use nsi_base::{RecordNo, Second, is_name};
use nsi_disk::Image;
use nsi_primitive::{Ask, Kind};
use std::alloc::Global;

const WORD: LineRefusal = LineRefusal::Fault(ScriptFault::Word);

pub fn name(word: &[u8]) -> Result<&[u8], LineRefusal>
    ensures { Gives (λ w. w.now) result (name_form word.now) }
{
    if is_name(word) { Ok(word) } else { Err(WORD) }
}

/// A number of the range, in 1 to 20 digits.
pub fn number(low: u64, high: u64, word: &[u8]) -> Result<u64, LineRefusal>
    ensures form { Gives (λ n. n) result (number_form low high word.now) }
    ensures in_range { IfOk result (λ n. (low ≤ n) × (n ≤ high)) }
{
    number_of(low, high, word).ok_or(WORD)
}

pub fn second(word: &[u8]) -> Result<Second, LineRefusal>
    ensures { Gives (λ n. n) result (number_form 0 greatest_second word.now) }
{
    let n = number(0, Second::MAX, word)?;
    match Second::new(n) {
        Some(second) => Ok(second),
        None => unreachable!(),
    }
}

/// The number of a record.
pub fn record(word: &[u8]) -> Result<RecordNo, LineRefusal>
    ensures { Gives (λ n. n) result (number_form 0 greatest_record word.now) }
{
    let n = number(0, u64::from(RecordNo::MAX), word)?;
    match RecordNo::new(n as u32) {
        Some(record) => Ok(record),
        None => unreachable!(),
    }
}

pub fn ask(alloc: Global, words: &[&[u8]]) -> Result<Ask, LineRefusal>
    ensures form { Gives (λ a. a) result (ask_form (map (λ w. w.now) words.now)) }
    ensures printable { IfOk result IsPrintableAsk }
{
    match ask_in(alloc, words) {
        Ok(ask) => Ok(ask),
        Err(AskTextFault::NotAnAsk) => Err(WORD),
        Err(AskTextFault::NoMemory) => Err(LineRefusal::NoMemory),
    }
}

/// What is sent over a link: a kind of message, or `ack`.
pub fn parcel(word: &[u8]) -> Result<ParcelKind, LineRefusal>
    ensures { Gives (λ k. k) result (parcel_form word.now) }
{
    if word == b"ack".as_slice() {
        return Ok(ParcelKind::Ack);
    }
    match Kind::named(word) {
        Some(kind) => Ok(ParcelKind::Message(kind)),
        None => Err(WORD),
    }
}

/// What a stop leaves on the disk.
pub fn image(word: &[u8]) -> Result<Image, LineRefusal>
    ensures { Gives (λ i. i) result (image_form word.now) }
{
    if word == b"old".as_slice() {
        Ok(Image::Old)
    } else if word == b"new".as_slice() {
        Ok(Image::New)
    } else if word == b"torn".as_slice() {
        Ok(Image::Torn)
    } else {
        Err(WORD)
    }
}
