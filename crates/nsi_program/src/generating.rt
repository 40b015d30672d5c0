//! The command `generate`.

ghost use Rattle.std.specs.Prelude.{◌≡◌, ◌<◌, true, false};
ghost use Rattle.provide_command.specs.Promise.{is_told, Writes, WritesFront};
ghost use Rattle.nsi_script.specs.Load.{load_of};

use command_words::Load;
use nsi_outside::Sink;
use nsi_script::make_load;
use provide_command::{Fault, Status, write_text};
use std::alloc::Global;

/// Writes a topology and a script that are drawn from a number. It reads nothing.
pub(crate) fn generate<K: Sink>(alloc: Global, load: Load, out: &mut K) -> Status
    ensures told { is_told result ≡ true →
        (result ≡ Status.Done)
        × Writes (K.content out.old) (K.content out.new) (load_of load.from load.size) }
    ensures front { is_told result ≡ false →
        WritesFront (K.content out.old) (K.content out.new) (load_of load.from load.size) }
    ensures write { result ≡ Status.WriteFault → K.faults out.old < K.faults out.new }
    ensures not_usage { result ≡ Status.Usage → ⊥ }
    ensures not_read { result ≡ Status.ReadFault → ⊥ }
    ensures not_disk { result ≡ Status.DiskFault → ⊥ }
    ensures quiet { is_told result ≡ true → K.faults out.new ≡ K.faults out.old }
    ensures memory { result ≡ Status.NoMemory → K.faults out.new ≡ K.faults out.old }
{
    let Ok(text) = make_load(alloc, load.from, load.size) else {
        return Status::NoMemory;
    };
    match write_text(out, &text) {
        Ok(()) => Status::Done,
        Err(Fault::Write) => Status::WriteFault,
        Err(_) => Status::NoMemory,
    }
}
