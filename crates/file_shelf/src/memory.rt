//! An open file in memory, which tells.

ghost use Rattle.std.specs.Prelude.{◌≡◌, Some, IfOk, OnErr};
ghost use Rattle.std.specs.IoError.{error_kind};
ghost use Rattle.std.specs.declared.io.ErrorKind.TheVariants.{Other};
ghost use Rattle.nsi_disk.specs.Disk.{Broke, Fresh, MayStep, seen};
ghost use Rattle.nsi_disk.specs.DiskOf.{history_of};

use crate::file::DiskFile;
use nsi_disk::{Disk, DiskError, MemoryDisk};
use std::alloc::Global;
use std::io::{self, ErrorKind};

/// A file over a disk in memory, which nothing else has and which is in its folder. It fails where the disk fails or stops, and
/// takes each piece whole.
#[derive(Drop)]
pub struct MemoryFile {
    alloc: Global,
    disk: MemoryDisk,
    has_lost: bool,
}

fn other() -> io::Error
    ensures { error_kind result ≡ Other }
{
    io::Error::from(ErrorKind::Other)
}

/// Syncs the disk, and gives one of the same bytes to which nothing has happened.
fn settled(alloc: Global, disk: &mut MemoryDisk) -> Result<MemoryDisk, DiskError>
    ensures fresh { IfOk result (λ d. history_of d ≡ Fresh (seen (history_of disk.old))) }
    ensures failed { OnErr result
        (MayStep Broke (history_of disk.old) (Some (history_of disk.new))) }
{
    let length = disk.length()?;
    let mut bytes = Vec::from_elem(alloc, 0u8, length as usize)?;
    disk.read_at(0, &mut bytes)?;
    disk.sync()?;
    Ok(MemoryDisk::new(alloc, bytes, Vec::new(alloc), Vec::new(alloc)))
}

impl MemoryFile {
    ghost use Rattle.file_shelf.specs.MemoryOf.{memory_told};
    ghost use Rattle.file_shelf.specs.Told.{untouched};

    /// These bytes. The calls with the listed numbers, counted from 1, fail.
    pub fn new(alloc: Global, bytes: Vec<u8>, failing: Vec<u64>) -> MemoryFile
        ensures { memory_told result ≡ untouched bytes.items }
    {
        MemoryFile {
            alloc,
            disk: MemoryDisk::new(alloc, bytes, failing, Vec::new(alloc)),
            has_lost: false,
        }
    }
}

impl DiskFile for MemoryFile {
    ghost use Rattle.file_shelf.specs.MemoryOf.{memory_told, memory_image};

    ghost told = { λ f. Some (memory_told f) };

    ghost reads_image = { λ f. memory_image f };

    fn length(&mut self) -> io::Result<u64> {
        match self.disk.length() {
            Ok(length) => Ok(length),
            Err(_) => Err(other()),
        }
    }

    fn read(&mut self, place: u64, buffer: &mut [u8], done: usize) -> io::Result<usize> {
        if done > 0 {
            return Err(other());
        }
        match self.disk.read_at(place, buffer) {
            Ok(()) => Ok(buffer.len()),
            Err(_) => Err(other()),
        }
    }

    fn write(&mut self, place: u64, piece: &[u8], done: usize) -> io::Result<usize> {
        if done > 0 {
            return Err(other());
        }
        match self.disk.write_at(place, piece) {
            Ok(()) => Ok(piece.len()),
            Err(_) => Err(other()),
        }
    }

    fn cut(&mut self, len: u64) -> io::Result<()> {
        match self.disk.cut(len) {
            Ok(()) => Ok(()),
            Err(_) => Err(other()),
        }
    }

    fn sync(&mut self) -> io::Result<()> {
        if self.has_lost {
            return Err(other());
        }
        match self.disk.sync() {
            Ok(()) => Ok(()),
            Err(_) => {
                self.has_lost = true;
                Err(other())
            }
        }
    }

    fn settle(&mut self) -> io::Result<()> {
        if self.has_lost {
            return Err(other());
        }
        match settled(self.alloc, &mut self.disk) {
            Ok(disk) => {
                self.disk = disk;
                Ok(())
            }
            Err(_) => {
                self.has_lost = true;
                Err(other())
            }
        }
    }
}
