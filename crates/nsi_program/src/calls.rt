//! The top calls.

ghost use Rattle.std.specs.Prelude.{◌≡◌, ℕ, ◌<◌, ◌↔◌, ◌⊎◌, codes, map, string_bytes, true, false, None, Some, IfSome};
ghost use Rattle.provide_command.specs.Backed.{Backs};
ghost use Rattle.fault_lines.specs.Lines.{as_line};
ghost use Rattle.provide_command.specs.Promise.{is_told, read_fault_line, Writes, WritesFront, IsComplete, IsSafe, NamesFault};
ghost use Rattle.command_words.specs.Words.{command_of};
ghost use Rattle.command_words.specs.declared.command.Command.TheVariants.{Provide as ProvideValue, Run as RunValue, Generate as GenerateValue};
ghost use Rattle.command_words.specs.declared.command.Load.{Load};
ghost use Rattle.command_words.specs.declared.command.Play.{Play};
ghost use Rattle.nsi_script.specs.Load.{load_of};
ghost use Rattle.run_command.specs.Runs.{disks, KeepsRun, IsHeavy, IsLight};
ghost use Rattle.fault_lines.specs.Counts.{counted};
ghost use Rattle.provide_command.specs.Ends.{WithReading};
ghost use Rattle.nsi_program.specs.Ends.{HasEnded, IsChecked, IsCut, IsBroken, IsCutShort, ReadsTopology, TellsDisks, AreQuiet, HasDiskEnd, NoneFailed, IsDoneOrShort};
ghost use Rattle.nsi_program.specs.Plain.{EndsPlainly, outside};
ghost use Rattle.nsi_program.specs.RunsTo.{options_of};

use crate::check::check;
use crate::generating::generate;
use crate::running::run;
use crate::verifying::verify;
use command_words::{Command, command_of};
use nsi_disk::Shelf;
use nsi_outside::{Sink, Source};
use provide_command::{Fault, Status, provide, write_text};
use run_command::begins_with_nothing;
use std::alloc::Global;
use std::thread::Threads;

/// Runs the command that the words name, on the bytes of the input. The words are those behind the program's name.
///
/// `provide` reads as it goes: a line is answered before the next one is read. A line of more than 65,536 bytes is
/// refused; an input of more than 67,108,864 bytes is answered up to there. `check`, `run` and `verify` read the whole
/// input first, `generate` none. The words of a race name no command.
pub fn top_plain<R: Threads + Sync, S: Source, K: Sink, H: Shelf>(
    rt: &R,
    alloc: Global,
    words: &[String],
    input: &mut S,
    out: &mut K,
    shelf: &mut H,
) -> Status
where
    H::Disk: Drop + Send,
    // The words, the bytes and the journal say how it ends and all that is written; of `run` but for the disks that
    // stop, where the shelf tells what it holds, or the script restarts nobody and no disk has stopped.
    ensures ends { is_told result ≡ true →
        HasEnded (command_of (map string_bytes words.now))
        (disks (H.holds shelf.old) (H.holds shelf.new) (H.stops shelf.old) (H.stops shelf.new))
        (K.content out.old) (S.left input.old) result (K.content out.new) }
    ensures usage { is_told result ≡ true →
        ((result ≡ Status.Usage) ↔ (command_of (map string_bytes words.now) ≡ None)) }

    ensures complete { (most : ℕ) →
        command_of (map string_bytes words.now) ≡ Some (ProvideValue most) → is_told result ≡ true
        → WithReading (H.holds shelf.old) (S.left input.old)
        (λ read. IsComplete read most (K.content out.old) (S.left input.old) result) }
    ensures safe { (most : ℕ) → command_of (map string_bytes words.now) ≡ Some (ProvideValue most) →
        is_told result ≡ true
        → WithReading (H.holds shelf.old) (S.left input.old)
        (λ read. IsSafe read (K.content out.old) (S.left input.old) result
        (K.content out.new)) }
    ensures checked { command_of (map string_bytes words.now) ≡ Some Command.Check →
        is_told result ≡ true → IsChecked (K.content out.old) (S.left input.old) result }
    ensures generated { (load : Load) →
        command_of (map string_bytes words.now) ≡ Some (GenerateValue load) → is_told result ≡ true
        → (result ≡ Status.Done)
        × Writes (K.content out.old) (K.content out.new) (load_of load.from load.size) }
    ensures bad_topology { ReadsTopology (command_of (map string_bytes words.now)) →
        is_told result ≡ true →
        NamesFault (K.content out.old) (S.left input.old) result (K.content out.new) }

    // A fault comes only from outside, and leaves whole lines or a front of them.
    ensures read_fault { result ≡ Status.ReadFault → S.faults input.old < S.faults input.new }
    ensures cut { result ≡ Status.ReadFault →
        IsCut (command_of (map string_bytes words.now)) (H.holds shelf.old) (K.content out.old)
        (S.left input.old) (S.left input.new) (K.content out.new) }
    ensures alone { command_of (map string_bytes words.now) ≡ Some Command.Check →
        result ≡ Status.ReadFault → Writes (K.content out.old) (K.content out.new) read_fault_line }
    ensures write_fault { result ≡ Status.WriteFault → K.faults out.old < K.faults out.new }
    ensures unfinished { (result ≡ Status.WriteFault) ⊎ (result ≡ Status.NoMemory)
        → IsCutShort (command_of (map string_bytes words.now))
        (disks (H.holds shelf.old) (H.holds shelf.new) (H.stops shelf.old) (H.stops shelf.new))
        (K.content out.old) (S.left input.old) (S.left input.new)
        (counted (S.faults input.old) (H.faults shelf.old) (H.stops shelf.old))
        (counted (S.faults input.new) (H.faults shelf.new) (H.stops shelf.new))
        (K.content out.new) }
    ensures disk_fault { result ≡ Status.DiskFault →
        HasDiskEnd (command_of (map string_bytes words.now))
        (counted (S.faults input.old) (H.faults shelf.old) (H.stops shelf.old))
        (counted (S.faults input.new) (H.faults shelf.new) (H.stops shelf.new)) }
    ensures broken { result ≡ Status.DiskFault →
        IsBroken (command_of (map string_bytes words.now))
        (disks (H.holds shelf.old) (H.holds shelf.new) (H.stops shelf.old) (H.stops shelf.new))
        (K.content out.old) (S.left input.old) (K.content out.new) }

    // With every status, each whole line of a message is caused by entries that the disk given back recovers to.
    ensures backed { (most : ℕ) →
        command_of (map string_bytes words.now) ≡ Some (ProvideValue most) →
        Backs (H.holds shelf.old) (H.holds shelf.new) (K.content out.old) (S.left input.old)
        (K.content out.new) }

    // With Done the disk of each agent of `run` reads as its journal of such a play, where the shelf told what it held.
    ensures journals { (play : Play)
        → command_of (map string_bytes words.now) ≡ Some (RunValue play)
        → result ≡ Status.Done → IfSome (S.left input.old)
        (λ bytes. KeepsRun bytes
        (disks (H.holds shelf.old) (H.holds shelf.new) (H.stops shelf.old) (H.stops shelf.new))) }

    // `run` makes too many events only where the input is too long, or where the weight of its script is above the
    // limit: a number that topology and script tell, with as many restarts as the script has lines that restart an
    // agent or stop a disk. So with a limit of that weight it is Done, or memory is wanting, where no call fails outside.
    ensures settles { (play : Play)
        → command_of (map string_bytes words.now) ≡ Some (RunValue play)
        → result ≡ Status.Long → IfSome (S.left input.old)
        (λ bytes. IsHeavy (options_of play)
        (disks (H.holds shelf.old) (H.holds shelf.new) (H.stops shelf.old) (H.stops shelf.new))
        bytes) }
    ensures completes { (play : Play)
        → command_of (map string_bytes words.now) ≡ Some (RunValue play)
        → NoneFailed (counted (S.faults input.old) (H.faults shelf.old) (H.stops shelf.old))
        (counted (S.faults input.new) (H.faults shelf.new) (H.stops shelf.new))
        (K.faults out.old) (K.faults out.new)
        → IfSome (S.left input.old) (λ bytes. IfSome (K.content out.old)
        (λ content. IsLight play.most (H.holds shelf.old) bytes → IsDoneOrShort result)) }

    // No fault is swallowed, and none is told as want of memory; but a failed read is, or a failed disk, where there is
    // no memory for its line. In the round of `run` that has too many events another agent's disk may have failed too,
    // and so may one whose journal has no reading; a disk of `run` that has stopped is no fault.
    ensures quiet_in { is_told result ≡ true → S.faults input.new ≡ S.faults input.old }
    ensures quiet_out { is_told result ≡ true → K.faults out.new ≡ K.faults out.old }
    ensures quiet_disk { is_told result ≡ true →
        TellsDisks (command_of (map string_bytes words.now)) result →
        AreQuiet (command_of (map string_bytes words.now))
        (counted (S.faults input.old) (H.faults shelf.old) (H.stops shelf.old))
        (counted (S.faults input.new) (H.faults shelf.new) (H.stops shelf.new)) }
    ensures reading { result ≡ Status.ReadFault → K.faults out.new ≡ K.faults out.old }
    ensures memory { result ≡ Status.NoMemory → K.faults out.new ≡ K.faults out.old }
{
    top(rt, alloc, words, input, out, shelf)
}

/// The same, with all its promises as one. This is the call that the program makes.
pub fn top<R: Threads + Sync, S: Source, K: Sink, H: Shelf>(
    rt: &R,
    alloc: Global,
    words: &[String],
    input: &mut S,
    out: &mut K,
    shelf: &mut H,
) -> Status
where
    H::Disk: Drop + Send,
    ensures plain { EndsPlainly (command_of (map string_bytes words.now))
        (outside (K.content out.old) (S.left input.old) (H.holds shelf.old)
        (S.faults input.old) (H.faults shelf.old) (H.stops shelf.old) (K.faults out.old))
        (outside (K.content out.new) (S.left input.new) (H.holds shelf.new)
        (S.faults input.new) (H.faults shelf.new) (H.stops shelf.new) (K.faults out.new))
        result }
    ensures usage { is_told result ≡ true →
        ((result ≡ Status.Usage) ↔ (command_of (map string_bytes words.now) ≡ None)) }
{
    let Ok(named) = command_of(alloc, words) else {
        begins_with_nothing();
        return Status::NoMemory;
    };
    let Some(command) = named else {
        return usage(out);
    };
    match &command {
        Command::Provide(most) => provide(alloc, *most, input, out, shelf),
        Command::Run(play) => run(rt, alloc, *play, input, out, shelf),
        Command::Check => check(alloc, input, out),
        Command::Verify(most) => verify(alloc, *most, input, out),
        Command::Generate(load) => generate(alloc, *load, out),
    }
}

/// Writes that the words are of no form.
fn usage<K: Sink>(out: &mut K) -> Status
    ensures told { is_told result ≡ true →
        (result ≡ Status.Usage)
        × Writes (K.content out.old) (K.content out.new) (as_line (codes "fault usage")) }
    ensures front { is_told result ≡ false →
        WritesFront (K.content out.old) (K.content out.new) (as_line (codes "fault usage")) }
    ensures write { result ≡ Status.WriteFault → K.faults out.old < K.faults out.new }
    ensures not_read { result ≡ Status.ReadFault → ⊥ }
    ensures not_disk { result ≡ Status.DiskFault → ⊥ }
    ensures quiet { is_told result ≡ true → K.faults out.new ≡ K.faults out.old }
    ensures memory { result ≡ Status.NoMemory → K.faults out.new ≡ K.faults out.old }
{
    match write_text(out, b"fault usage\n") {
        Ok(()) => Status::Usage,
        Err(Fault::Write) => Status::WriteFault,
        Err(_) => Status::NoMemory,
    }
}
