//! The command `race`, as the program tells how it ends, and the call that knows it beside all others.

ghost use Rattle.std.specs.Prelude.{◌≡◌, ◌↔◌, ℕ, map, string_bytes, true, None, Some};
ghost use Rattle.command_words.specs.Words.{command_of, race_of};
ghost use Rattle.provide_command.specs.Promise.{is_told};
ghost use Rattle.nsi_program.specs.Plain.{EndsPlainly, outside};
ghost use Rattle.nsi_program.specs.RacesTo.{EndsRace, status_of_race};

use crate::calls::top;
use command_limits::EventLimit;
use command_words::race_of;
use nsi_disk::Shelf;
use nsi_outside::{Sink, Source};
use provide_command::Status;
use race_command::{Means, RaceEnd};
use run_command::begins_with_nothing;
use std::alloc::Global;
use std::sync::Wait;
use std::thread::Threads;

/// The status of the end of a race.
fn status_of(end: RaceEnd) -> Status
    ensures status { result ≡ status_of_race end }
    ensures not_usage { result ≡ Status.Usage → ⊥ }
{
    match end {
        RaceEnd::Done => Status::Done,
        RaceEnd::BadTopology => Status::BadTopology,
        RaceEnd::BadScript => Status::BadScript,
        RaceEnd::Long => Status::Long,
        RaceEnd::ReadFault => Status::ReadFault,
        RaceEnd::WriteFault => Status::WriteFault,
        RaceEnd::DiskFault => Status::DiskFault,
        RaceEnd::Differ => Status::Differ,
        RaceEnd::NoMemory => Status::NoMemory,
    }
}

/// The command `race`.
fn race<R: Threads + Wait + Sync, S: Source, K: Sink, H: Shelf>(
    means: &Means<'_, R>,
    input: &mut S,
    out: &mut K,
    shelf: &mut H,
) -> Status
where
    H::Disk: Drop + Send,
    ensures raced { EndsRace means.now.most
        (outside (K.content out.old) (S.left input.old) (H.holds shelf.old)
        (S.faults input.old) (H.faults shelf.old) (H.stops shelf.old) (K.faults out.old))
        (outside (K.content out.new) (S.left input.new) (H.holds shelf.new)
        (S.faults input.new) (H.faults shelf.new) (H.stops shelf.new) (K.faults out.new))
        result }
    ensures not_usage { result ≡ Status.Usage → ⊥ }
{
    let end = race_command::race(means, input, out, shelf);
    status_of(end)
}

/// Races where the words say so, and else does what `top` does. Only a race takes locks, so it alone may wait for ever.
pub fn top_or_race<R: Threads + Wait + Sync, S: Source, K: Sink, H: Shelf>(
    rt: &R,
    alloc: Global,
    words: &[String],
    input: &mut S,
    out: &mut K,
    shelf: &mut H,
) -> Status
where
    H::Disk: Drop + Send,
    ensures plain { race_of (map string_bytes words.now) ≡ None →
        EndsPlainly (command_of (map string_bytes words.now))
        (outside (K.content out.old) (S.left input.old) (H.holds shelf.old)
        (S.faults input.old) (H.faults shelf.old) (H.stops shelf.old) (K.faults out.old))
        (outside (K.content out.new) (S.left input.new) (H.holds shelf.new)
        (S.faults input.new) (H.faults shelf.new) (H.stops shelf.new) (K.faults out.new))
        result }
    ensures raced { (most : ℕ) → race_of (map string_bytes words.now) ≡ Some most →
        EndsRace most
        (outside (K.content out.old) (S.left input.old) (H.holds shelf.old)
        (S.faults input.old) (H.faults shelf.old) (H.stops shelf.old) (K.faults out.old))
        (outside (K.content out.new) (S.left input.new) (H.holds shelf.new)
        (S.faults input.new) (H.faults shelf.new) (H.stops shelf.new) (K.faults out.new))
        result }
    ensures usage { is_told result ≡ true → ((result ≡ Status.Usage)
        ↔ ((command_of (map string_bytes words.now) ≡ None)
        × (race_of (map string_bytes words.now) ≡ None))) }
{
    let Ok(limit) = race_of(alloc, words) else {
        begins_with_nothing();
        return Status::NoMemory;
    };
    match limit {
        Some(most) => race(&Means { rt, alloc, most }, input, out, shelf),
        None => top(rt, alloc, words, input, out, shelf),
    }
}
