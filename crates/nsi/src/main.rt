//! The program: the words, the bytes and the journals that it is run with, and how it ends.
#![tactic(auto)]

ghost use Rattle.std.specs.Prelude.{map, string_bytes};
ghost use Rattle.nsi.specs.Usage.{IsUsageAsNamed};

use file_shelf::FileShelf;
use nsi_disk::{MemoryShelf, Shelf};
use nsi_outside::{StdSink, StdSource};
use nsi_program::{Status, top_or_race};
use std::env::VarError;
use std::process::ExitCode;
use std::sync::Wait;
use std::thread::Threads;
use std::{env, io};

/// The environment variable that names the folder of the journals.
const JOURNALS: &str = "NSI_JOURNALS";

/// Stands for a name that isn't UTF-8, which can't be asked for: no folder has this one, so its disks are refused.
const NO_FOLDER: &str = "\0";

fn main(rt: HostRuntime) -> ExitCode {
    ExitCode::from(run(&rt, &rt).code())
}

/// Runs the command that the words behind the program's name say, over standard input and output, and `run` and `race` in
/// threads of this handle. The journal of `provide` is a file of the folder that the environment names; where it names none,
/// and for every other command, journals begin empty, in memory. No contract knows the words, the bytes and the files that a
/// program is run with.
fn run<R: Threads + Wait + Sync>(rt: &HostRuntime, threads: &R) -> Status {
    match words(rt) {
        Ok(words) => run_words(rt, threads, &words),
        Err(_) => Status::NoMemory,
    }
}

/// Runs the words over the journals that are theirs.
fn run_words<R: Threads + Wait + Sync>(rt: &HostRuntime, threads: &R, words: &[String]) -> Status
    ensures { IsUsageAsNamed (map string_bytes words.now) result }
{
    if !keeps_journals(words) {
        return run_in_memory(rt, threads, words);
    }
    match env::var(rt, JOURNALS) {
        Ok(folder) if folder.is_empty() => run_in_memory(rt, threads, words),
        Ok(folder) => run_over(rt, threads, words, &mut FileShelf::new(rt, folder.as_str())),
        Err(VarError::NotPresent) => run_in_memory(rt, threads, words),
        Err(VarError::NotUnicode) => run_over(
            rt,
            threads,
            words,
            &mut FileShelf::new(rt, NO_FOLDER),
        ),
        Err(VarError::OutOfMemory) => Status::NoMemory,
    }
}

/// Whether the command keeps journals.
fn keeps_journals(words: &[String]) -> bool {
    match words.first() {
        Some(command) => command.as_str() == "provide",
        None => false,
    }
}

fn run_in_memory<R: Threads + Wait + Sync>(
    rt: &HostRuntime,
    threads: &R,
    words: &[String],
) -> Status
    ensures { IsUsageAsNamed (map string_bytes words.now) result }
{
    let mut shelf = MemoryShelf::new(Vec::new(rt.alloc()), Vec::new(rt.alloc()));
    run_over(rt, threads, words, &mut shelf)
}

fn run_over<R: Threads + Wait + Sync, H: Shelf>(
    rt: &HostRuntime,
    threads: &R,
    words: &[String],
    shelf: &mut H,
) -> Status
where
    H::Disk: Drop + Send,
    ensures { IsUsageAsNamed (map string_bytes words.now) result }
{
    let mut input = StdSource::new(rt.reader());
    let mut out = StdSink::new(io::writer(rt));
    top_or_race(threads, rt.alloc(), words, &mut input, &mut out, shelf)
}

/// The words behind the program's name. There are none where one isn't UTF-8, which no command is either.
fn words(rt: &HostRuntime) -> io::Result<Vec<String>> {
    match env::args(rt) {
        Ok(args) => Ok(args.skip(1).collect(rt.alloc())?),
        Err(error) if error.kind() == io::ErrorKind::InvalidData => Ok(Vec::new(rt.alloc())),
        Err(error) => Err(error),
    }
}
