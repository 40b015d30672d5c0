//! From a text to the ask that it is.

ghost use Rattle.std.specs.Prelude.{◌≡◌, ◌≤◌, ◌<◌, length, map, IfOk, IfSome, Some};
ghost use Rattle.nsi_base.specs.Digits.{number_of};
ghost use Rattle.nsi_base.specs.Range.{greatest_second, least_mbps, greatest_mbps, greatest_version};
ghost use Rattle.nsi_base.specs.Words.{words_of};
ghost use Rattle.nsi_base.specs.declared.words.Blanks.TheVariants.{Space};
ghost use Rattle.nsi_primitive.specs.Printable.{ArePointsApart, IsPrintableAsk};
ghost use Rattle.ask_text.specs.Asks.{ask_text};
ghost use Rattle.ask_text.specs.Faults.{Gives};
ghost use Rattle.ask_text.specs.Reading.{name_in, labelled_in, plain_in, summary_in, numbers_in, is_one, given_version, version_in, way_by, way_in, reserve_in, plain_named, by_verb, ask_in, ask_of};

use crate::printing::text_of;
use nsi_base::digits::number_of;
use nsi_base::words::words;
use nsi_base::{Blanks, Mbps, Name, NameFault, Second, Version};
use nsi_primitive::{Ask, Directionality, NumbersAsked, ReserveAsk, What};
use std::alloc::{AllocError, Global};

/// Why a text was not taken as an ask.
#[derive(Clone, Copy, Debug, PartialEq, Eq)]
pub enum AskTextFault {
    NotAnAsk,
    NoMemory,
}

impl From<AllocError> for AskTextFault {
    ghost use Rattle.ask_text.specs.declared.reading.AskTextFault.TheVariants.{NoMemory};

    ghost from_gives = { λ _ e. e ≡ NoMemory };

    fn from(_e: AllocError) -> AskTextFault {
        AskTextFault::NoMemory
    }
}

/// Reads an ask from the one text that it is written as.
#[tactic(auto, unfolding(crate::specs::Reading::ask_of))]
pub fn read_ask(alloc: Global, text: &[u8]) -> Result<Ask, AskTextFault>
    ensures gives { Gives result (ask_of text.now) }
    ensures printable { IfOk result IsPrintableAsk }
    ensures spelled { IfOk result (λ a. ask_text a ≡ text.now) }
{
    let ask = ask_at(alloc, text)?;
    let spelling = text_of(alloc, &ask)?;
    if spelling.as_slice() == text {
        Ok(ask)
    } else {
        Err(AskTextFault::NotAnAsk)
    }
}

fn ask_at(alloc: Global, text: &[u8]) -> Result<Ask, AskTextFault>
    ensures gives { Gives result (ask_in (words_of Space text.now)) }
    ensures printable { IfOk result IsPrintableAsk }
{
    let words = words(alloc, Blanks::Space, text)?;
    ask_in(alloc, &words)
}

/// The ask that words are. Numbers may have leading zeros.
pub fn ask_in(alloc: Global, words: &[&[u8]]) -> Result<Ask, AskTextFault>
    ensures gives { Gives result (ask_in (map (λ w. w.now) words.now)) }
    ensures printable { IfOk result IsPrintableAsk }
{
    match words.split_first() {
        None => Err(AskTextFault::NotAnAsk),
        Some((verb, args)) => by_verb(alloc, verb, args),
    }
}

#[tactic(auto, unfolding(crate::specs::Reading::by_verb))]
fn by_verb(alloc: Global, verb: &[u8], args: &[&[u8]]) -> Result<Ask, AskTextFault>
    ensures gives { Gives result (by_verb verb.now (map (λ w. w.now) args.now)) }
    ensures printable { IfOk result IsPrintableAsk }
{
    if verb == b"reserve".as_slice() {
        reserve_in(alloc, args)
    } else if verb == b"summary".as_slice() {
        summary_in(alloc, args)
    } else if verb == b"notifications".as_slice() {
        let numbers = numbers_in(args)?;
        labelled_in(alloc, What::Notifications(numbers), args)
    } else if verb == b"results".as_slice() {
        let numbers = numbers_in(args)?;
        labelled_in(alloc, What::Results(numbers), args)
    } else {
        match plain_named(verb) {
            Some(what) => plain_in(alloc, what, args),
            None => Err(AskTextFault::NotAnAsk),
        }
    }
}

#[tactic(auto, unfolding(crate::specs::Reading::plain_named))]
fn plain_named(verb: &[u8]) -> Option<What>
    ensures value { result ≡ plain_named verb.now }
    ensures points { IfSome result ArePointsApart }
{
    if verb == b"commit".as_slice() {
        Some(What::Commit)
    } else if verb == b"abort".as_slice() {
        Some(What::Abort)
    } else if verb == b"provision".as_slice() {
        Some(What::Provision)
    } else if verb == b"release".as_slice() {
        Some(What::Release)
    } else if verb == b"terminate".as_slice() {
        Some(What::Terminate)
    } else if verb == b"recursive".as_slice() {
        Some(What::Recursive)
    } else {
        None
    }
}

fn name_in(alloc: Global, word: &[u8]) -> Result<Name, AskTextFault>
    ensures { Gives result (name_in word.now) }
{
    match Name::of(alloc, word) {
        Ok(name) => Ok(name),
        Err(NameFault::NotAName) => Err(AskTextFault::NotAnAsk),
        Err(NameFault::NoMemory) => Err(AskTextFault::NoMemory),
    }
}

fn number_in(low: u64, high: u64, word: &[u8]) -> Result<u64, AskTextFault>
    ensures gives { Gives result (number_of low high word.now) }
    ensures in_range { IfOk result (λ n. (low ≤ n) × (n ≤ high)) }
{
    match number_of(low, high, word) {
        Some(n) => Ok(n),
        None => Err(AskTextFault::NotAnAsk),
    }
}

fn capacity_in(word: &[u8]) -> Result<Mbps, AskTextFault>
    ensures { Gives result (number_of least_mbps greatest_mbps word.now) }
{
    let n = number_in(1, Mbps::MAX, word)?;
    match Mbps::new(n) {
        Some(mbps) => Ok(mbps),
        None => unreachable!(),
    }
}

fn second_in(word: &[u8]) -> Result<Second, AskTextFault>
    ensures { Gives result (number_of 0 greatest_second word.now) }
{
    let n = number_in(0, Second::MAX, word)?;
    match Second::new(n) {
        Some(second) => Ok(second),
        None => unreachable!(),
    }
}

fn one_version(word: &[u8]) -> Result<Version, AskTextFault>
    ensures { Gives result (number_of 0 greatest_version word.now) }
{
    let n = number_in(0, u64::from(Version::MAX), word)?;
    match Version::new(n as u32) {
        Some(version) => Ok(version),
        None => unreachable!(),
    }
}

fn is_one(word: &[u8]) -> bool
    ensures { result ≡ is_one word.now }
{
    word == b"one".as_slice()
}

fn given_version(word: &[u8]) -> Result<Option<Version>, AskTextFault>
    ensures { Gives result (given_version word.now) }
{
    let version = one_version(word)?;
    Ok(Some(version))
}

#[tactic(auto, unfolding(crate::specs::Reading::version_in))]
fn version_in(args: &[&[u8]]) -> Result<Option<Version>, AskTextFault>
    ensures gives { Gives result (version_in (map (λ w. w.now) args.now)) }
    ensures long { IfOk result (λ _. 6 ≤ length args.now) }
    ensures short { IfOk result (λ _. length args.now ≤ 8) }
{
    match args.len() {
        6 => Ok(None),
        7 if is_one(args[6]) => Ok(None),
        7 => given_version(args[6]),
        8 if is_one(args[7]) => given_version(args[6]),
        _ => Err(AskTextFault::NotAnAsk),
    }
}

fn way_by(word: &[u8]) -> Directionality
    ensures { result ≡ way_by word.now }
{
    if is_one(word) {
        Directionality::Unidirectional
    } else {
        Directionality::Bidirectional
    }
}

#[tactic(auto, unfolding(crate::specs::Reading::way_in))]
fn way_in(args: &[&[u8]]) -> Directionality
    requires long { 6 ≤ length args.now }
    requires short { length args.now ≤ 8 }
    ensures { result ≡ way_in (map (λ w. w.now) args.now) }
{
    match args.len() {
        6 => Directionality::Bidirectional,
        7 => way_by(args[6]),
        _ => way_by(args[7]),
    }
}

#[tactic(auto, unfolding(crate::specs::Reading::numbers_in))]
fn numbers_in(args: &[&[u8]]) -> Result<Option<NumbersAsked>, AskTextFault>
    ensures gives { Gives result (numbers_in (map (λ w. w.now) args.now)) }
    ensures long { IfOk result (λ _. 1 ≤ length args.now) }
{
    match args.len() {
        1 => Ok(None),
        3 => {
            let from = number_in(0, u64::MAX, args[1])?;
            let to = number_in(0, u64::MAX, args[2])?;
            Ok(Some(NumbersAsked { from, to }))
        }
        _ => Err(AskTextFault::NotAnAsk),
    }
}

#[tactic(auto, unfolding(crate::specs::Reading::labelled_in))]
fn labelled_in(alloc: Global, what: What, args: &[&[u8]]) -> Result<Ask, AskTextFault>
    requires labelled { 0 < length args.now }
    requires points { ArePointsApart what }
    ensures gives { Gives result (labelled_in what (map (λ w. w.now) args.now)) }
    ensures printable { IfOk result IsPrintableAsk }
{
    let label = name_in(alloc, args[0])?;
    Ok(Ask {
        label: Some(label),
        what,
    })
}

fn plain_in(alloc: Global, what: What, args: &[&[u8]]) -> Result<Ask, AskTextFault>
    requires { ArePointsApart what }
    ensures gives { Gives result (plain_in what (map (λ w. w.now) args.now)) }
    ensures printable { IfOk result IsPrintableAsk }
{
    if args.len() == 1 {
        labelled_in(alloc, what, args)
    } else {
        Err(AskTextFault::NotAnAsk)
    }
}

#[tactic(auto, unfolding(crate::specs::Reading::summary_in))]
fn summary_in(alloc: Global, args: &[&[u8]]) -> Result<Ask, AskTextFault>
    ensures gives { Gives result (summary_in (map (λ w. w.now) args.now)) }
    ensures printable { IfOk result IsPrintableAsk }
{
    if args.is_empty() {
        return Ok(Ask {
            label: None,
            what: What::Summary,
        });
    }
    plain_in(alloc, What::Summary, args)
}

#[tactic(auto, unfolding(crate::specs::Reading::reserve_in))]
fn reserve_in(alloc: Global, args: &[&[u8]]) -> Result<Ask, AskTextFault>
    ensures gives { Gives result (reserve_in (map (λ w. w.now) args.now)) }
    ensures printable { IfOk result IsPrintableAsk }
{
    let version = version_in(args)?;
    let label = name_in(alloc, args[0])?;
    let source = name_in(alloc, args[1])?;
    let dest = name_in(alloc, args[2])?;
    let capacity = capacity_in(args[3])?;
    let start = second_in(args[4])?;
    let end = second_in(args[5])?;
    if source.is(&dest) {
        return Err(AskTextFault::NotAnAsk);
    }
    Ok(Ask {
        label: Some(label),
        what: What::Reserve(ReserveAsk {
            source,
            dest,
            capacity,
            start,
            end,
            version,
            directionality: way_in(args),
        }),
    })
}
