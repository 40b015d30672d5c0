//! The command `run`, as the program tells how it ends.

ghost use Rattle.std.specs.Prelude.{◌≡◌, ◌<◌, ◌⊎◌, true, IfSome};
ghost use Rattle.run_command.specs.Ends.{IsCutShort as IsRunCutShort, IsQuiet, HasFaulted, is_told as is_told_end, HidesDisks as HidesEnd};
ghost use Rattle.run_command.specs.Runs.{disks, KeepsRun, Breaks as BreaksRun, IsHeavy};
ghost use Rattle.fault_lines.specs.Counts.{counted};
ghost use Rattle.provide_command.specs.Promise.{is_told, read_fault_line, Writes};
ghost use Rattle.nsi_program.specs.RunsTo.{RunsTo, options_of, status_of_run, HidesDisks};
ghost use Rattle.provide_command.specs.Writes.{WritesSome};

use agent_threads::{Resources, RunOptions};
use command_words::Play;
use nsi_disk::Shelf;
use nsi_outside::{Sink, Source};
use provide_command::Status;
use run_command::RunEnd;
use std::alloc::Global;
use std::thread::Threads;

/// The status of the end of a run.
fn status_of(end: RunEnd) -> Status
    ensures status { result ≡ status_of_run end }
    ensures told { is_told result ≡ is_told_end end }
    ensures not_usage { result ≡ Status.Usage → ⊥ }
    ensures done { result ≡ Status.Done → end ≡ RunEnd.Done }
    ensures hides { HidesEnd end → HidesDisks result }
{
    match end {
        RunEnd::Done => Status::Done,
        RunEnd::BadTopology => Status::BadTopology,
        RunEnd::BadScript => Status::BadScript,
        RunEnd::Long => Status::Long,
        RunEnd::ReadFault => Status::ReadFault,
        RunEnd::WriteFault => Status::WriteFault,
        RunEnd::DiskFault => Status::DiskFault,
        RunEnd::NotAJournal => Status::NotAJournal,
        RunEnd::NoMemory => Status::NoMemory,
    }
}

/// The command `run`.
pub(crate) fn run<R: Threads + Sync, S: Source, K: Sink, H: Shelf>(
    threads: &R,
    alloc: Global,
    play: Play,
    input: &mut S,
    out: &mut K,
    shelf: &mut H,
) -> Status
where
    H::Disk: Drop + Send,
    ensures ends { is_told result ≡ true → IfSome (S.left input.old)
        (λ bytes. WritesSome (RunsTo (options_of play)
        (disks (H.holds shelf.old) (H.holds shelf.new) (H.stops shelf.old) (H.stops shelf.new))
        bytes result) (K.content out.old) (K.content out.new)) }
    ensures not_usage { result ≡ Status.Usage → ⊥ }
    ensures read_fault { result ≡ Status.ReadFault → S.faults input.old < S.faults input.new }
    ensures alone { result ≡ Status.ReadFault →
        Writes (K.content out.old) (K.content out.new) read_fault_line }
    ensures write_fault { result ≡ Status.WriteFault → K.faults out.old < K.faults out.new }
    ensures disk_fault { result ≡ Status.DiskFault →
        HasFaulted
        (counted (S.faults input.old) (H.faults shelf.old) (H.stops shelf.old))
        (counted (S.faults input.new) (H.faults shelf.new) (H.stops shelf.new)) }
    ensures broken { result ≡ Status.DiskFault → IfSome (S.left input.old)
        (λ bytes. WritesSome (BreaksRun (options_of play)
        (disks (H.holds shelf.old) (H.holds shelf.new) (H.stops shelf.old) (H.stops shelf.new))
        bytes) (K.content out.old) (K.content out.new)) }
    ensures unfinished { (result ≡ Status.WriteFault) ⊎ (result ≡ Status.NoMemory) →
        IsRunCutShort (options_of play)
        (disks (H.holds shelf.old) (H.holds shelf.new) (H.stops shelf.old) (H.stops shelf.new))
        (K.content out.old) (S.left input.old)
        (counted (S.faults input.old) (H.faults shelf.old) (H.stops shelf.old))
        (counted (S.faults input.new) (H.faults shelf.new) (H.stops shelf.new))
        (K.content out.new) }
    ensures quiet_in { is_told result ≡ true → S.faults input.new ≡ S.faults input.old }
    ensures quiet_out { is_told result ≡ true → K.faults out.new ≡ K.faults out.old }
    ensures quiet_disk { is_told result ≡ true → (HidesDisks result → ⊥) →
        IsQuiet
        (counted (S.faults input.old) (H.faults shelf.old) (H.stops shelf.old))
        (counted (S.faults input.new) (H.faults shelf.new) (H.stops shelf.new)) }
    ensures reading { result ≡ Status.ReadFault → K.faults out.new ≡ K.faults out.old }
    ensures memory { result ≡ Status.NoMemory → K.faults out.new ≡ K.faults out.old }
    ensures journals { result ≡ Status.Done → IfSome (S.left input.old)
        (λ bytes. KeepsRun bytes
        (disks (H.holds shelf.old) (H.holds shelf.new) (H.stops shelf.old) (H.stops shelf.new))) }
    ensures settles { result ≡ Status.Long → IfSome (S.left input.old)
        (λ bytes. IsHeavy (options_of play)
        (disks (H.holds shelf.old) (H.holds shelf.new) (H.stops shelf.old) (H.stops shelf.new))
        bytes) }
{
    let resources = Resources {
        alloc,
        threads,
        workers: play.workers.get(),
    };
    let options = RunOptions {
        limit: play.most.get(),
        report: play.report,
    };
    let end = run_command::run(&resources, options, input, out, shelf);
    status_of(end)
}
