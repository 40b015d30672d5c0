//! A disk over an open file.

ghost use Rattle.std.specs.Prelude.{◌≡◌, ◌+◌, length, true, false, OnOk, IfSome, Some};
ghost use Rattle.nsi_disk.specs.Disk.{Broke, Wrote, wrote};
ghost use Rattle.file_shelf.specs.Tallies.{fresh_meter};
ghost use Rattle.file_shelf.specs.Told.{Goes, ReadsAll, Reaches, is_kept};

use crate::file::DiskFile;
use crate::outcome::{CallOutcome, PieceOutcome, call_outcome, length_outcome, piece_outcome};
use crate::tally::Tally;
use nsi_disk::{Disk, DiskError};
use std::alloc::AllocError;

/// A file that the system keeps. It is closed where it is dropped. Once a sync has failed each later
/// one fails too, since the system may have let go of what it couldn't write. It never stops: a fault
/// that can't be counted is told as want of memory.
#[derive(Drop)]
pub struct FileDisk<F: DiskFile> {
    file: F,
    tally: Tally,
    has_lost: bool,
    ghost kept: { is_kept (F.DiskFile.told file) has_lost ≡ true },
}

impl<F: DiskFile> FileDisk<F> {
    ghost use Rattle.nsi_disk.specs.Disk.{Fresh, HasCause, seen};
    ghost use Rattle.file_shelf.specs.DiskOf.{file_of, meter_of};
    ghost use Rattle.file_shelf.specs.Told.{past_of};

    pub fn new(file: F) -> FileDisk<F>
        requires { is_kept (F.DiskFile.told file) false ≡ true }
        ensures file { file_of result ≡ file }
        ensures meter { meter_of result ≡ fresh_meter }
    {
        FileDisk {
            file,
            tally: Tally::new(),
            has_lost: false,
        }
    }

    pub fn into_file(self) -> F
        ensures { result ≡ file_of self }
    {
        let FileDisk {
            file,
            tally: _,
            has_lost: _,
        } = self;
        file
    }

    /// Syncs it. From here on it is a disk that nothing has happened to, with its counts.
    pub fn settle(&mut self) -> Result<(), DiskError>
        ensures fresh { OnOk result (IfSome (past_of (F.DiskFile.told (file_of self.old))) (λ h.
            past_of (F.DiskFile.told (file_of self.new)) ≡ Some (Fresh (seen h)))) }
        ensures cause { HasCause (meter_of self.old) (meter_of self.new) result }
    {
        if self.has_lost {
            return self.tally.settle(CallOutcome::Failed);
        }
        let came = call_outcome(self.file.settle());
        self.has_lost = came == CallOutcome::Failed;
        self.tally.settle(came)
    }

    /// How many of its calls failed.
    pub fn faults(&self) -> u64
        ensures { result ≡ (meter_of self.now).faults }
    {
        self.tally.faults()
    }
}

fn read_whole<F: DiskFile>(file: &mut F, place: u64, buffer: &mut [u8]) -> CallOutcome
    requires { Reaches (place + length buffer.old) (F.DiskFile.told file.old) }
    ensures bytes { ReadsAll place (F.DiskFile.told file.old) buffer.old buffer.new result }
    ensures goes { Goes Broke (λ h. h)
        (F.DiskFile.told file.old) (F.DiskFile.told file.new) result }
{
    let mut left = buffer.len();
    for _ in 0..u64::MAX {
        let done = buffer.len() - left;
        let read = file.read(place, buffer, done);
        match piece_outcome(left, read) {
            PieceOutcome::Whole => return CallOutcome::Done,
            PieceOutcome::Left(n) => left = n,
            PieceOutcome::Failed => return CallOutcome::Failed,
        }
    }
    CallOutcome::Failed
}

fn write_whole<F: DiskFile>(file: &mut F, place: u64, piece: &[u8]) -> CallOutcome
    requires { Reaches place (F.DiskFile.told file.old) }
    ensures { Goes (Wrote place (length piece.now)) (λ h. wrote place piece.now h)
        (F.DiskFile.told file.old) (F.DiskFile.told file.new) result }
{
    let mut left = piece.len();
    for _ in 0..u64::MAX {
        let done = piece.len() - left;
        let written = file.write(place, piece, done);
        match piece_outcome(left, written) {
            PieceOutcome::Whole => return CallOutcome::Done,
            PieceOutcome::Left(n) => left = n,
            PieceOutcome::Failed => return CallOutcome::Failed,
        }
    }
    CallOutcome::Failed
}

impl<F: DiskFile> Disk for FileDisk<F> {
    ghost use Rattle.std.proofs.Common.{arith};
    ghost use Rattle.file_shelf.specs.DiskOf.{meter_of};
    ghost use Rattle.file_shelf.specs.Told.{past_of};
    ghost use Rattle.file_shelf.specs.ToldLaws.{past_image};

    ghost history = { λ d. past_of (F.DiskFile.told d.file) };

    ghost meter = { λ d. meter_of d };

    ghost reads_image = { λ d. past_image (F.DiskFile.told d.file) (F.DiskFile.reads_image d.file) };

    ghost few_stops = { λ _. omega arith };

    fn length(&mut self) -> Result<u64, DiskError> {
        let (came, length) = length_outcome(self.file.length());
        match self.tally.settle(came) {
            Ok(()) => Ok(length),
            Err(error) => Err(error),
        }
    }

    fn read_at(&mut self, place: u64, buffer: &mut [u8]) -> Result<(), DiskError> {
        let came = read_whole(&mut self.file, place, buffer);
        self.tally.settle(came)
    }

    fn write_at(&mut self, place: u64, piece: &[u8]) -> Result<(), DiskError> {
        let came = write_whole(&mut self.file, place, piece);
        self.tally.settle(came)
    }

    fn cut(&mut self, len: u64) -> Result<(), DiskError> {
        let came = call_outcome(self.file.cut(len));
        self.tally.settle(came)
    }

    fn sync(&mut self) -> Result<(), DiskError> {
        if self.has_lost {
            return self.tally.settle(CallOutcome::Failed);
        }
        let came = call_outcome(self.file.sync());
        self.has_lost = came == CallOutcome::Failed;
        self.tally.settle(came)
    }

    fn make_room(&mut self, calls: u64, longest: u64, bytes: u64) -> Result<(), AllocError> {
        self.tally.make_room(calls, longest, bytes)
    }
}
