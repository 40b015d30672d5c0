//! A disk over a file that answers little at a time, and files of a folder.

ghost use Rattle.std.specs.Prelude.{◌≤◌, ◌+◌, IfOk};

mod folders;

use file_shelf::FileDisk;
use nsi_disk::{Disk, DiskError};
use std::cell::Cell;
use std::fs::{Metadata, OpenFile};
use std::io::{self, ErrorKind};
use std::os::unix::fs::FileExt;

fn error(kind: ErrorKind) -> io::Error {
    io::Error::from(kind)
}

/// A file of eight bytes that moves two bytes a call. The second call is interrupted, and no call goes past the end. Its first
/// sync fails, and no other call does.
#[derive(Drop)]
struct SlowFile {
    bytes: Cell<[u8; 8]>,
    calls: Cell<u8>,
    syncs: Cell<u8>,
}

impl SlowFile {
    fn of(bytes: [u8; 8]) -> SlowFile {
        SlowFile {
            bytes: Cell::new(bytes),
            calls: Cell::new(0),
            syncs: Cell::new(0),
        }
    }

    /// Where the next call moves its bytes, and how many, of so many that are wanted.
    fn next_call(&self, offset: u64, wanted: usize) -> io::Result<(usize, usize)>
        ensures inside { IfOk result (λ moved. moved.0 + moved.1 ≤ 8) }
        ensures few { IfOk result (λ moved. moved.1 ≤ wanted) }
    {
        let calls = self.calls.get().wrapping_add(1);
        self.calls.set(calls);
        if calls == 2 {
            return Err(error(ErrorKind::Interrupted));
        }
        let at = offset.min(8) as usize;
        Ok((at, wanted.min(8 - at).min(2)))
    }
}

impl FileExt for SlowFile {
    fn read_at(&self, buffer: &mut [u8], offset: u64) -> io::Result<usize> {
        let (at, n) = self.next_call(offset, buffer.len())?;
        let bytes = self.bytes.get();
        buffer[..n].copy_from_slice(&bytes[at..at + n]);
        Ok(n)
    }

    fn write_at(&self, piece: &[u8], offset: u64) -> io::Result<usize> {
        let (at, n) = self.next_call(offset, piece.len())?;
        let mut bytes = self.bytes.get();
        bytes[at..at + n].copy_from_slice(&piece[..n]);
        self.bytes.set(bytes);
        Ok(n)
    }
}

impl OpenFile for SlowFile {
    fn metadata(&self) -> io::Result<Metadata> {
        Ok(Metadata::of_file(8))
    }

    fn set_len(&self, _: u64) -> io::Result<()> {
        Err(error(ErrorKind::StorageFull))
    }

    fn sync_all(&self) -> io::Result<()> {
        let syncs = self.syncs.get().wrapping_add(1);
        self.syncs.set(syncs);
        if syncs == 1 {
            return Err(error(ErrorKind::Other));
        }
        Ok(())
    }

    fn sync_data(&self) -> io::Result<()> {
        self.sync_all()
    }
}

#[test]
fn a_piece_goes_on_with_the_rest(rt: HostRuntime) {
    let mut disk = FileDisk::new(SlowFile::of(*b"abcdefgh"));
    let mut buffer = [0u8; 8];
    assert!(rt; disk.write_at(1, b"VWXYZ") == Ok(()));
    assert!(rt; disk.read_at(0, &mut buffer) == Ok(()));
    assert_eq!(rt; buffer, *b"aVWXYZgh");
    let mut disk = FileDisk::new(SlowFile::of(*b"abcdefgh"));
    let mut rest = [0u8; 5];
    assert!(rt; disk.read_at(3, &mut rest) == Ok(()));
    assert_eq!(rt; rest, *b"defgh");
    assert_eq!(rt; disk.faults(), 0);
}

#[test]
fn each_fault_counts(rt: HostRuntime) {
    let mut disk = FileDisk::new(SlowFile::of(*b"abcdefgh"));
    let mut buffer = [0u8; 4];
    assert!(rt; disk.read_at(5, &mut buffer) == Err(DiskError::Failed));
    assert!(rt; disk.write_at(7, b"YZ") == Err(DiskError::Failed));
    assert!(rt; disk.cut(3) == Err(DiskError::Failed));
    assert!(rt; disk.length() == Ok(8));
    assert_eq!(rt; disk.faults(), 3);
}

#[test]
fn behind_a_failed_sync_all_fail(rt: HostRuntime) {
    let mut disk = FileDisk::new(SlowFile::of(*b"abcdefgh"));
    assert!(rt; disk.sync() == Err(DiskError::Failed));
    assert!(rt; disk.sync() == Err(DiskError::Failed));
    assert!(rt; disk.length() == Ok(8));
    assert_eq!(rt; disk.faults(), 2);
}
