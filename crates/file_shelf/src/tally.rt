//! The count of a disk's faults, and the room that was made.

ghost use Rattle.std.specs.Prelude.{◌≡◌, ◌≤◌, ◌+◌, OnOk, OnErr};
ghost use Rattle.nsi_disk.specs.Disk.{HasCause, KeepsRoom, with_room};
ghost use Rattle.file_shelf.specs.Tallies.{most_faults, answer, settled, fresh_meter};

use crate::outcome::CallOutcome;
use nsi_disk::DiskError;
use std::alloc::AllocError;

/// A file takes no memory of the program, so the room of a call is that its fault can be counted.
#[derive(Drop)]
pub struct Tally {
    faults: u64,
    calls: u64,
    longest: u64,
    bytes: u64,
    ghost room: { faults + calls ≤ most_faults },
}

impl Tally {
    ghost use Rattle.file_shelf.specs.DiskOf.{tally_meter};

    pub fn new() -> Tally
        ensures { tally_meter result ≡ fresh_meter }
    {
        Tally {
            faults: 0,
            calls: 0,
            longest: 0,
            bytes: 0,
        }
    }

    pub fn faults(&self) -> u64
        ensures { result ≡ (tally_meter self.now).faults }
    {
        self.faults
    }

    /// The disk's answer to a call, by what it came to. Each fault is counted, and one that can't
    /// be is told as want of memory.
    pub fn settle(&mut self, came: CallOutcome) -> Result<(), DiskError>
        ensures answer { result ≡ answer (tally_meter self.old) came }
        ensures settled { tally_meter self.new ≡ settled (tally_meter self.old) came }
        ensures cause { HasCause (tally_meter self.old) (tally_meter self.new) result }
        ensures room { 1 ≤ (tally_meter self.old).calls
            → KeepsRoom (tally_meter self.old) (tally_meter self.new) 0 result }
    {
        self.calls = self.calls.saturating_sub(1);
        if came == CallOutcome::Done {
            return Ok(());
        }
        if self.faults < u64::MAX {
            self.faults += 1;
            return Err(DiskError::Failed);
        }
        Err(DiskError::NoMemory)
    }

    pub fn make_room(&mut self, calls: u64, longest: u64, bytes: u64) -> Result<(), AllocError>
        ensures ok { OnOk result
            (tally_meter self.new ≡ with_room calls longest bytes (tally_meter self.old)) }
        ensures err { OnErr result (tally_meter self.new ≡ tally_meter self.old) }
    {
        if u64::MAX - self.faults < calls {
            return Err(AllocError);
        }
        self.calls = calls;
        self.longest = longest;
        self.bytes = bytes;
        Ok(())
    }
}
