//! Files of a folder that the test makes.

use file_shelf::{FileDisk, FileShelf};
use nsi_base::Name;
use nsi_disk::{Disk, DiskError, Shelf, ShelfError};
use std::fs::{self, File};
use std::test::Fail;

fn write_all(disk: &mut FileDisk<File>) -> Result<(), DiskError> {
    disk.write_at(0, b"abcdef")?;
    disk.sync()?;
    disk.cut(4)?;
    disk.write_at(3, b"XYZ")?;
    disk.cut(5)?;
    disk.sync()
}

fn read_all(disk: &mut FileDisk<File>) -> Result<(u64, [u8; 5]), DiskError> {
    let length = disk.length()?;
    let mut buffer = [0u8; 5];
    disk.read_at(0, &mut buffer)?;
    Ok((length, buffer))
}

/// What may go to another thread.
fn hand_over<T: Send>(value: T) -> T {
    value
}

#[test]
fn what_is_written_is_read_again(rt: HostRuntime) -> Result<(), Fail> {
    let _ = fs::remove_dir_all(&rt, "edge_tests_written");
    fs::create_dir(&rt, "edge_tests_written")?;
    let mut shelf = FileShelf::new(&rt, "edge_tests_written");
    let name = Name::of(rt.alloc(), b"urn:a/../b")?;
    let mut disk = hand_over(shelf.fetch(rt.alloc(), &name, &[])?);
    let empty = disk.length();
    assert!(rt; empty == Ok(0));
    let written = write_all(&mut disk);
    assert!(rt; written == Ok(()));
    shelf.give_back(&name, disk);
    let mut disk = shelf.fetch(rt.alloc(), &name, &[])?;
    let read = read_all(&mut disk);
    assert!(rt; read == Ok((5, *b"abcXY")));
    let mut disk = shelf.fetch_again(rt.alloc(), &name, disk)?;
    let past = disk.read_at(3, &mut [0u8; 3]);
    assert!(rt; past == Err(DiskError::Failed));
    let bytes = fs::read(&rt, "edge_tests_written/urn%3Aa%2F%2E%2E%2Fb.journal")?;
    assert_eq!(rt; bytes.as_slice(), b"abcXY".as_slice());
    fs::remove_dir_all(&rt, "edge_tests_written")?;
    Ok(())
}

fn fetch_refusal(shelf: &mut FileShelf<'_>, rt: &HostRuntime, name: &Name) -> Option<ShelfError> {
    match shelf.fetch(rt.alloc(), name, &[]) {
        Ok(_) => None,
        Err(error) => Some(error),
    }
}

#[test]
fn a_disk_that_is_out_is_refused(rt: HostRuntime) -> Result<(), Fail> {
    let _ = fs::remove_dir_all(&rt, "edge_tests_twice");
    fs::create_dir(&rt, "edge_tests_twice")?;
    let mut shelf = FileShelf::new(&rt, "edge_tests_twice");
    let name = Name::of(rt.alloc(), b"a")?;
    let other = Name::of(rt.alloc(), b"b")?;
    let disk = shelf.fetch(rt.alloc(), &name, &[])?;
    let mut second = FileShelf::new(&rt, "edge_tests_twice");
    let refused = fetch_refusal(&mut second, &rt, &name);
    let given = fetch_refusal(&mut second, &rt, &other);
    assert!(rt; refused == Some(ShelfError::Failed) && given == None);
    shelf.give_back(&name, disk);
    let given = fetch_refusal(&mut second, &rt, &name);
    assert!(rt; given == None);
    fs::remove_dir_all(&rt, "edge_tests_twice")?;
    Ok(())
}

#[test]
fn what_cannot_be_opened_is_a_fault(rt: HostRuntime) -> Result<(), Fail> {
    let _ = fs::remove_dir_all(&rt, "edge_tests_faults");
    let mut shelf = FileShelf::new(&rt, "edge_tests_faults");
    let short = Name::of(rt.alloc(), b"a")?;
    let without_folder = fetch_refusal(&mut shelf, &rt, &short);
    assert!(rt; without_folder == Some(ShelfError::Failed));
    fs::create_dir(&rt, "edge_tests_faults")?;
    let long = Name::of(rt.alloc(), &[b'/'; 128])?;
    let too_long = fetch_refusal(&mut shelf, &rt, &long);
    assert!(rt; too_long == Some(ShelfError::Failed));
    let given = fetch_refusal(&mut shelf, &rt, &short);
    assert!(rt; given == None);
    fs::remove_dir_all(&rt, "edge_tests_faults")?;
    Ok(())
}
