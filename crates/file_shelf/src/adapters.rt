//! The trusted edge: std's files and folders. They tell nothing, since no contract can say what a file gives; each method is
//! one call of std.

ghost use Rattle.std.specs.Prelude.{◌≡◌, ◌+◌, ◌-◌, ◌^◌, min};

use crate::file::DiskFile;
use crate::folder::Folder;
use crate::name::file_name;
use crate::outcome::fetch_outcome;
use nsi_base::Name;
use nsi_disk::ShelfError;
use std::alloc::Global;
use std::fs::{File, OpenFile, OpenOptions, TryLockError};
use std::io;
use std::os::unix::fs::FileExt;
use std::path::PathBuf;

/// The place of the byte behind the first `done`. No file has a byte at the greatest place.
fn place_of(place: u64, done: usize) -> u64
    ensures { result ≡ min (place + done) (2 ^ 64 - 1) }
{
    place.saturating_add(done as u64)
}

impl<F: FileExt + OpenFile> DiskFile for F {
    ghost use Rattle.std.specs.Prelude.{None};

    ghost told = { λ _. None };

    ghost reads_image = { λ _. tt };

    fn length(&mut self) -> io::Result<u64> {
        Ok(self.metadata()?.len())
    }

    fn read(&mut self, place: u64, buffer: &mut [u8], done: usize) -> io::Result<usize> {
        self.read_at(&mut buffer[done..], place_of(place, done))
    }

    fn write(&mut self, place: u64, piece: &[u8], done: usize) -> io::Result<usize> {
        self.write_at(&piece[done..], place_of(place, done))
    }

    fn cut(&mut self, len: u64) -> io::Result<()> {
        self.set_len(len)
    }

    fn sync(&mut self) -> io::Result<()> {
        self.sync_all()
    }

    fn settle(&mut self) -> io::Result<()> {
        self.sync_all()
    }
}

/// A folder of the system.
#[derive(Drop)]
pub struct StdFolder<'a> {
    rt: &'a HostRuntime,
    path: &'a str,
}

impl<'a> StdFolder<'a> {
    ghost use Rattle.file_shelf.specs.ShelfOf.{path_of};

    /// The folder of this path.
    pub fn new(rt: &'a HostRuntime, path: &'a str) -> StdFolder<'a>
        ensures { path_of result ≡ path.now }
    {
        StdFolder { rt, path }
    }
}

impl<'a> Folder for StdFolder<'a> {
    ghost use Rattle.std.specs.Prelude.{None};

    type File = File;

    ghost holds = { λ _ _. None };

    fn open(&self, alloc: Global, name: &Name) -> Result<File, ShelfError> {
        let mut path = PathBuf::from_str(alloc, self.path)?;
        path.push(file_name(alloc, name)?.as_str())?;
        let mut options = OpenOptions::new();
        options.read(true).write(true).create(true);
        fetch_outcome(options.open(self.rt, path.as_path()))
    }

    fn lock(&self, file: &mut File) -> Result<(), TryLockError> {
        file.try_lock()
    }

    fn sync(&self, _: &mut File) -> io::Result<()> {
        File::open(self.rt, self.path)?.sync_all()
    }

    fn close(&mut self, _: &Name, _: File) {}
}
