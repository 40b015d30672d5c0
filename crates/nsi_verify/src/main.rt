//! A program that checks a trace: nothing of it plays a script, keeps a journal or starts a thread.
#![tactic(auto)]

ghost use Rattle.std.specs.Prelude.{◌≡◌, ◌↔◌, map, string_bytes, None};
ghost use Rattle.nsi_verify.specs.Words.{limit_of, number_behind};

use command_limits::EventLimit;
use nsi_base::digits::number_of;
use nsi_outside::{StdSink, StdSource};
use std::process::ExitCode;
use std::{env, io};
use verify_command::{VerifyEnd, verify};

/// The exit status where the words are others than `--events N` or none.
const USAGE: u8 = 4;

fn main(rt: HostRuntime) -> ExitCode {
    ExitCode::from(run(&rt))
}

/// Checks the trace that stands behind a topology on standard input. No contract knows the words and the bytes that a
/// program is run with.
fn run(rt: &HostRuntime) -> u8 {
    match words(rt) {
        Ok(words) => run_words(rt, &words),
        Err(error) if error.kind() == io::ErrorKind::InvalidData => USAGE,
        Err(_) => VerifyEnd::NoMemory.code(),
    }
}

/// Checks it as the words say, which are refused exactly where they say nothing.
fn run_words(rt: &HostRuntime, words: &[String]) -> u8
    ensures { (result ≡ 4) ↔ (limit_of (map string_bytes words.now) ≡ None) }
{
    match limit_of(words) {
        Some(most) => run_with(rt, most).code(),
        None => USAGE,
    }
}

fn run_with(rt: &HostRuntime, most: EventLimit) -> VerifyEnd {
    let mut input = StdSource::new(rt.reader());
    let mut out = StdSink::new(io::writer(rt));
    verify(rt.alloc(), most, &mut input, &mut out)
}

/// How many events the words let be followed.
fn limit_of(words: &[String]) -> Option<EventLimit>
    ensures { result ≡ limit_of (map string_bytes words.now) }
{
    match words {
        [] => Some(EventLimit::greatest()),
        [name, number] => number_behind(name.as_str(), number.as_str()),
        _ => None,
    }
}

/// The number behind the word `--events`.
fn number_behind(name: &str, number: &str) -> Option<EventLimit>
    ensures { result ≡ number_behind name.now number.now }
{
    if name != "--events" {
        return None;
    }
    let n = number_of(1, EventLimit::MAX, number.as_bytes())?;
    EventLimit::new(n)
}

/// The words behind the program's name.
fn words(rt: &HostRuntime) -> io::Result<Vec<String>> {
    let args = env::args(rt)?;
    Ok(args.skip(1).collect(rt.alloc())?)
}
