//! From an ask to its text.

ghost use Rattle.std.specs.Prelude.{◌≡◌, ◌++◌, ◌∷◌, decimal, IfOk, OnOk, IfSome, Some};
ghost use Rattle.nsi_base.specs.Words.{behind};
ghost use Rattle.nsi_primitive.specs.Printable.{IsPrintableAsk};
ghost use Rattle.nsi_primitive.specs.Ranges.{IsName, IsVersion, AreCounts, IsRangedReserveAsk, IsRangedWhat, IsRangedAsk};
ghost use Rattle.ask_text.specs.Asks.{verb_of, label_words, what_words, reserve_words, version_words, way_words, numbers_words, ask_text};
ghost use Rattle.ask_text.specs.Reading.{ask_of};

use nsi_base::digits::push_number;
use nsi_base::{Name, Version};
use nsi_primitive::{Ask, Directionality, NumbersAsked, ReserveAsk, What};
use std::alloc::{AllocError, Global};

/// Writes an ask as words with single spaces between them.
pub fn print_ask(alloc: Global, ask: &Ask) -> Result<Vec<u8>, AllocError>
    requires { IsPrintableAsk ask.now }
    ensures spelled { IfOk result (λ text. text.items ≡ ask_text ask.now) }
    ensures again { IfOk result (λ text. ask_of text.items ≡ Some ask.now) }
{
    text_of(alloc, ask)
}

pub(crate) fn text_of(alloc: Global, ask: &Ask) -> Result<Vec<u8>, AllocError>
    ensures spelled { IfOk result (λ text. text.items ≡ ask_text ask.now) }
    ensures ranged { OnOk result (IsRangedAsk ask.now) }
{
    let mut text = Vec::from_slice(alloc, verb(&ask.what).as_bytes())?;
    push_label(&mut text, &ask.label)?;
    push_what(alloc, &mut text, &ask.what)?;
    Ok(text)
}

#[tactic(auto, unfolding(crate::specs::Asks::verb_of))]
fn verb(what: &What) -> &'static str
    ensures { result.now ≡ verb_of what.now }
{
    match what {
        What::Reserve(_) => "reserve",
        What::Commit => "commit",
        What::Abort => "abort",
        What::Provision => "provision",
        What::Release => "release",
        What::Terminate => "terminate",
        What::Summary => "summary",
        What::Notifications(_) => "notifications",
        What::Results(_) => "results",
        What::Recursive => "recursive",
    }
}

fn push_name(text: &mut Vec<u8>, name: &Name) -> Result<(), AllocError>
    ensures put { OnOk result (text.new.items ≡ text.old.items ++ (32 ∷ name.now)) }
    ensures ranged { IsName name.now }
{
    let bytes = name.bytes();
    text.push(b' ')?;
    text.extend_from_slice(bytes)?;
    Ok(())
}

fn push_count(alloc: Global, text: &mut Vec<u8>, n: u64) -> Result<(), AllocError>
    ensures { OnOk result (text.new.items ≡ text.old.items ++ (32 ∷ decimal n)) }
{
    text.push(b' ')?;
    push_number(alloc, text, n)
}

fn push_label(text: &mut Vec<u8>, label: &Option<Name>) -> Result<(), AllocError>
    ensures put { OnOk result (text.new.items ≡ text.old.items ++ behind (label_words label.now)) }
    ensures ranged { OnOk result (IfSome label.now IsName) }
{
    match label {
        None => Ok(()),
        Some(label) => push_name(text, label),
    }
}

fn push_what(alloc: Global, text: &mut Vec<u8>, what: &What) -> Result<(), AllocError>
    ensures put { OnOk result (text.new.items ≡ text.old.items ++ behind (what_words what.now)) }
    ensures ranged { OnOk result (IsRangedWhat what.now) }
{
    match what {
        What::Reserve(reserve) => push_reserve(alloc, text, reserve),
        What::Notifications(numbers) | What::Results(numbers) => {
            push_numbers(alloc, text, numbers)
        }
        _ => Ok(()),
    }
}

fn push_reserve(alloc: Global, text: &mut Vec<u8>, reserve: &ReserveAsk) -> Result<(), AllocError>
    ensures put { OnOk result
        (text.new.items ≡ text.old.items ++ behind (reserve_words reserve.now)) }
    ensures ranged { OnOk result (IsRangedReserveAsk reserve.now) }
{
    push_name(text, &reserve.source)?;
    push_name(text, &reserve.dest)?;
    push_count(alloc, text, reserve.capacity.get())?;
    push_count(alloc, text, reserve.start.get())?;
    push_count(alloc, text, reserve.end.get())?;
    push_version(alloc, text, &reserve.version)?;
    push_way(text, reserve.directionality)
}

fn push_version(
    alloc: Global,
    text: &mut Vec<u8>,
    version: &Option<Version>,
) -> Result<(), AllocError>
    ensures put { OnOk result
        (text.new.items ≡ text.old.items ++ behind (version_words version.now)) }
    ensures ranged { OnOk result (IfSome version.now IsVersion) }
{
    match version {
        None => Ok(()),
        Some(version) => push_count(alloc, text, u64::from(version.get())),
    }
}

fn push_way(text: &mut Vec<u8>, directionality: Directionality) -> Result<(), AllocError>
    ensures { OnOk result (text.new.items ≡ text.old.items ++ behind (way_words directionality)) }
{
    match directionality {
        Directionality::Bidirectional => Ok(()),
        Directionality::Unidirectional => {
            text.extend_from_slice(b" one")?;
            Ok(())
        }
    }
}

fn push_numbers(
    alloc: Global,
    text: &mut Vec<u8>,
    numbers: &Option<NumbersAsked>,
) -> Result<(), AllocError>
    ensures put { OnOk result
        (text.new.items ≡ text.old.items ++ behind (numbers_words numbers.now)) }
    ensures ranged { OnOk result (IfSome numbers.now AreCounts) }
{
    match numbers {
        None => Ok(()),
        Some(numbers) => {
            push_count(alloc, text, numbers.from)?;
            push_count(alloc, text, numbers.to)
        }
    }
}
