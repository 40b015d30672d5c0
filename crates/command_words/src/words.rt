//! The words of the command line, read by `clap`.

ghost use Rattle.std.specs.Prelude.{◌≡◌, Bool, IfOk, Some, [], codes, false, map, string_bytes, option_map};
ghost use Rattle.clap.specs.Matches.{first_value, found_of, one_text};
ghost use Rattle.command_words.specs.Parsing.{Names, flag_text, has_end};
ghost use Rattle.command_words.specs.Words.{check_of, command_of, events_in, events_options, generate_of, generate_options, generate_with, limit_in, limit_of, named, race_named, race_of, run_of, run_options, run_with, with_options, workers_in};

use crate::command::{Command, Load, Play};
use crate::parsing::{flag, parsed, plain_command, value};
use clap::ArgMatches;
use command_limits::{EventLimit, Workers};
use nsi_base::digits::number_of;
use run_totals::Report;
use std::alloc::{AllocError, Global};

/// The command that the words name. The words are those behind the program's name.
pub fn command_of(alloc: Global, words: &[String]) -> Result<Option<Command>, AllocError>
    ensures { IfOk result (λ command. command ≡ command_of (map string_bytes words.now)) }
{
    let Some(name) = words.first() else {
        return Ok(None);
    };
    // To the parser this word would end the options.
    if has_end(words) {
        return Ok(None);
    }
    named(alloc, name.as_str(), words)
}

/// The command of this name, with the options behind it.
fn named(alloc: Global, name: &str, words: &[String]) -> Result<Option<Command>, AllocError>
    requires { has_end words.now ≡ false }
    ensures { Names (named name.now) words.now result }
{
    if name == "provide" {
        provide_in(alloc, words)
    } else if name == "run" {
        run_in(alloc, words)
    } else if name == "check" {
        check_in(alloc, words)
    } else if name == "verify" {
        verify_in(alloc, words)
    } else if name == "generate" {
        generate_in(alloc, words)
    } else {
        Ok(None)
    }
}

/// Whether a word is `--`.
fn has_end(words: &[String]) -> bool
    ensures { result ≡ has_end words.now }
{
    words.iter().any(|word| word.as_str() == "--")
}

/// In how many events at most requesters are to race, where that is what the words say: this one takes locks, so it is no
/// command. The words are those behind the program's name.
pub fn race_of(alloc: Global, words: &[String]) -> Result<Option<EventLimit>, AllocError>
    ensures { IfOk result (λ most. most ≡ race_of (map string_bytes words.now)) }
{
    let Some(name) = words.first() else {
        return Ok(None);
    };
    if has_end(words) {
        return Ok(None);
    }
    race_named(alloc, name.as_str(), words)
}

/// The limit of a race, where that is the name, with the options behind it.
fn race_named(alloc: Global, name: &str, words: &[String]) -> Result<Option<EventLimit>, AllocError>
    requires { has_end words.now ≡ false }
    ensures { Names (race_named name.now) words.now result }
{
    if name == "race" {
        limit_in(alloc, "race", words)
    } else {
        Ok(None)
    }
}

/// How many events the command of this name may have, whose one option says that.
fn limit_in(alloc: Global, name: &str, words: &[String]) -> Result<Option<EventLimit>, AllocError>
    requires { has_end words.now ≡ false }
    ensures { Names limit_in words.now result }
{
    let command = plain_command(alloc, name).arg(value(alloc, "events"))?;
    let Some(matches) = parsed(command, words)? else {
        return Ok(None);
    };
    Ok(limit_with(&matches))
}

/// What its matches ask for.
fn limit_with(matches: &ArgMatches<'_>) -> Option<EventLimit>
    ensures { result ≡ events_in (first_value (found_of matches.now) (codes "events")) }
{
    events_in(matches.get_str("events"))
}

/// `provide`, with the options behind it.
fn provide_in(alloc: Global, words: &[String]) -> Result<Option<Command>, AllocError>
    requires { has_end words.now ≡ false }
    ensures { Names (λ words. option_map Command.Provide (limit_in words)) words.now result }
{
    let most = limit_in(alloc, "provide", words)?;
    Ok(most.map(Command::Provide))
}

/// `verify`, with the options behind it.
fn verify_in(alloc: Global, words: &[String]) -> Result<Option<Command>, AllocError>
    requires { has_end words.now ≡ false }
    ensures { Names (λ words. option_map Command.Verify (limit_in words)) words.now result }
{
    let most = limit_in(alloc, "verify", words)?;
    Ok(most.map(Command::Verify))
}

/// `run`, with the options behind it.
fn run_in(alloc: Global, words: &[String]) -> Result<Option<Command>, AllocError>
    requires { has_end words.now ≡ false }
    ensures { Names (with_options run_options run_of) words.now result }
{
    let command = plain_command(alloc, "run")
        .arg(value(alloc, "events"))?
        .arg(value(alloc, "workers"))?
        .arg(flag(alloc, "summary"))?;
    let Some(matches) = parsed(command, words)? else {
        return Ok(None);
    };
    Ok(run_with(&matches))
}

/// What its matches ask for.
fn run_with(matches: &ArgMatches<'_>) -> Option<Command>
    ensures { (is_summary : Bool) →
        one_text (found_of matches.now) (codes "summary") ≡ Some (flag_text is_summary) →
        let events = first_value (found_of matches.now) (codes "events") in
        let workers = first_value (found_of matches.now) (codes "workers") in
        result ≡ run_with events workers is_summary }
{
    let most = events_in(matches.get_str("events"))?;
    let workers = workers_in(matches.get_str("workers"))?;
    let report = if matches.get_flag("summary") {
        Report::Summary
    } else {
        Report::Trace
    };
    Some(Command::Run(Play {
        most,
        workers,
        report,
    }))
}

/// `check`, with nothing behind it.
fn check_in(alloc: Global, words: &[String]) -> Result<Option<Command>, AllocError>
    requires { has_end words.now ≡ false }
    ensures { Names (with_options [] check_of) words.now result }
{
    let Some(_) = parsed(plain_command(alloc, "check"), words)? else {
        return Ok(None);
    };
    Ok(Some(Command::Check))
}

/// `generate`, with both options behind it.
fn generate_in(alloc: Global, words: &[String]) -> Result<Option<Command>, AllocError>
    requires { has_end words.now ≡ false }
    ensures { Names (with_options generate_options generate_of) words.now result }
{
    let command = plain_command(alloc, "generate")
        .arg(value(alloc, "from").required(true))?
        .arg(value(alloc, "size").required(true))?;
    let Some(matches) = parsed(command, words)? else {
        return Ok(None);
    };
    Ok(generate_with(&matches))
}

/// What its matches ask for.
fn generate_with(matches: &ArgMatches<'_>) -> Option<Command>
    ensures { let from = first_value (found_of matches.now) (codes "from") in
        let size = first_value (found_of matches.now) (codes "size") in
        result ≡ generate_with from size }
{
    let from = number_of(0, u64::MAX, matches.get_str("from")?.as_bytes())?;
    let size = number_of(0, MOST_RESERVES, matches.get_str("size")?.as_bytes())?;
    Some(Command::Generate(Load {
        from,
        size: size as u32,
    }))
}

/// The most reserves that a load may have.
const MOST_RESERVES: u64 = 5_000;

/// How many events there may be: as many as the word says, and the most where there is none.
#[tactic(auto, unfolding(nsi_base::specs::Digits::number_of))]
fn events_in(word: Option<&str>) -> Option<EventLimit>
    ensures { result ≡ events_in (option_map (λ s. s.now) word.entry) }
{
    let Some(word) = word else {
        return Some(EventLimit::greatest());
    };
    let n = number_of(1, EventLimit::MAX, word.as_bytes())?;
    EventLimit::new(n)
}

/// How many workers there are: as many as the word says, and one where there is none.
#[tactic(auto, unfolding(nsi_base::specs::Digits::number_of))]
fn workers_in(word: Option<&str>) -> Option<Workers>
    ensures { result ≡ workers_in (option_map (λ s. s.now) word.entry) }
{
    let Some(word) = word else {
        return Some(Workers::one());
    };
    let n = number_of(1, Workers::MAX, word.as_bytes())?;
    Workers::new(n)
}
