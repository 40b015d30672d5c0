//! Journals over the disk in memory: byte by byte, and cut off at each call.

ghost use Rattle.std.specs.Prelude.{◌≡◌, ◌<◌, false, length, All, IfOk};
ghost use Rattle.nsi_primitive.specs.Printable.{IsPrintableEntry};

use disk_journal::{DiskJournal, StartCause, StartFault};
use journal_entry::{Batch, Journal, JournalFault, keep};
use nsi_base::Second;
use nsi_disk::{Disk, Image, MemoryDisk, Stop};
use nsi_primitive::{Entry, Input};
use std::alloc::{AllocError, Global};
use std::test::Fail;

/// A batch of a tick at second 7, one of ticks at seconds 8 and 9, and a closed gate.
const TWO_BATCHES: [u8; 48] = [
    1, 0, 0, 0, 0, 0, 0, 0, 10, 2, 4, 0, 0, 0, 0, 0, 0, 0, 7, // the second gate is at place 19
    1, 0, 0, 0, 0, 0, 0, 0, 19, 2, 4, 0, 0, 0, 0, 0, 0, 0, 8, 4, 0, 0, 0, 0, 0, 0, 0, 9, 0,
];

/// A disk of these bytes.
fn disk_of(
    alloc: Global,
    bytes: &[u8],
    failing: &[u64],
    stops: &[Stop],
) -> Result<MemoryDisk, AllocError>
    ensures runs { IfOk result (λ d. (⟦<MemoryDisk as Disk>⟧.meter d).stopped ≡ false) }
{
    let bytes = Vec::from_slice(alloc, bytes)?;
    let failing = Vec::from_slice(alloc, failing)?;
    let stops = Vec::from_slice(alloc, stops)?;
    Ok(MemoryDisk::new(alloc, bytes, failing, stops))
}

fn tick(second: Second) -> Entry
    ensures { IsPrintableEntry result }
{
    Entry {
        second,
        input: Input::Tick,
    }
}

/// Whether these are ticks at the first so many of the seconds 7, 8 and 9.
fn are_ticks_from_seven(entries: &[Entry], count: usize) -> bool {
    let mut second = 7u64;
    for entry in entries {
        if entry.second.get() != second || !matches!(entry.input, Input::Tick) {
            return false;
        }
        second = second.saturating_add(1);
    }
    entries.len() == count
}

/// Keeps two batches.
fn keep_both<J: Journal>(
    alloc: Global,
    journal: &mut J,
    first: &[Entry],
    second: &[Entry],
) -> Result<(), JournalFault>
    requires ready { J.is_ready journal.old }
    requires none { J.waits journal.old ≡ false }
    requires first { (0 < length first.now) × All IsPrintableEntry first.now }
    requires second { (0 < length second.now) × All IsPrintableEntry second.now }
{
    let first = Batch::of(alloc, first)?;
    let second = Batch::of(alloc, second)?;
    keep(alloc, journal, &first)?;
    keep(alloc, journal, &second)
}

fn fault_of(cause: StartCause) -> JournalFault {
    match cause {
        StartCause::DiskFault => JournalFault::DiskFault,
        StartCause::Stopped => JournalFault::Stopped,
        _ => JournalFault::NoMemory,
    }
}

/// Begins a journal, keeps the two batches, and gives back the disk.
fn use_journal(
    alloc: Global,
    disk: MemoryDisk,
    first: &[Entry],
    second: &[Entry],
) -> (Result<(), JournalFault>, MemoryDisk)
    requires runs { (⟦<MemoryDisk as Disk>⟧.meter disk).stopped ≡ false }
    requires first { (0 < length first.now) × All IsPrintableEntry first.now }
    requires second { (0 < length second.now) × All IsPrintableEntry second.now }
{
    match DiskJournal::fresh(disk) {
        Ok(journal) => {
            let mut journal = journal;
            let kept = keep_both(alloc, &mut journal, first, second);
            (kept, journal.into_disk())
        }
        Err(fault) => {
            let StartFault { cause, disk } = fault;
            (Err(fault_of(cause)), disk)
        }
    }
}

/// The same on an empty disk: twelve calls. `fresh` cuts, syncs, writes and syncs; each batch is written and synced,
/// and its gate is written and synced.
fn cut_off(
    alloc: Global,
    failing: &[u64],
    stops: &[Stop],
) -> Result<(Result<(), JournalFault>, MemoryDisk), Fail> {
    let seven = Second::new(7).ok_or("a second")?;
    let eight = Second::new(8).ok_or("a second")?;
    let nine = Second::new(9).ok_or("a second")?;
    let first = [tick(seven)];
    let second = [tick(eight), tick(nine)];
    let disk = disk_of(alloc, &[], failing, stops)?;
    Ok(use_journal(alloc, disk, &first, &second))
}

/// Whether the disk after a crash now has so many of the ticks.
fn leaves(alloc: Global, disk: MemoryDisk, count: usize) -> Result<bool, AllocError> {
    match DiskJournal::start(alloc, disk.again(alloc)?) {
        Ok((journal, entries)) => {
            Ok(are_ticks_from_seven(&entries, count) && journal.synced() == count as u64)
        }
        Err(_) => Ok(false),
    }
}

#[test]
fn batches_are_written_byte_by_byte(rt: HostRuntime) -> Result<(), Fail> {
    let (kept, disk) = cut_off(rt.alloc(), &[], &[])?;
    assert!(rt; kept == Ok(()));
    assert_eq!(rt; disk.into_bytes().as_slice(), TWO_BATCHES.as_slice());
    Ok(())
}

/// How many ticks are left where each call in turn fails.
const LEFT_BY_FAULTS: [usize; 12] = [0, 0, 0, 0, 0, 0, 0, 1, 1, 1, 1, 3];

#[test]
fn each_call_fails_in_turn(rt: HostRuntime) -> Result<(), Fail> {
    let mut call = 0u64;
    for count in LEFT_BY_FAULTS {
        call = call.saturating_add(1);
        let (kept, disk) = cut_off(rt.alloc(), &[call], &[])?;
        assert!(rt; kept == Err(JournalFault::DiskFault), "{call}");
        let is_right = leaves(rt.alloc(), disk, count)?;
        assert!(rt; is_right, "{call}");
    }
    Ok(())
}

/// How many ticks are left where each call in turn stops the disk with the image Old, New and Torn.
const LEFT_BY_STOPS: [[usize; 3]; 12] = [
    [0, 0, 0],
    [0, 0, 0],
    [0, 0, 0],
    [0, 0, 0],
    [0, 0, 0],
    [0, 0, 0],
    [0, 1, 0],
    [0, 1, 1],
    [1, 1, 1],
    [1, 1, 1],
    [1, 3, 1],
    [1, 3, 3],
];

/// Whether a stop at this call leaves so many ticks.
fn stop_leaves(alloc: Global, call: u64, image: Image, count: usize) -> Result<bool, Fail> {
    let (kept, disk) = cut_off(alloc, &[], &[Stop { call, image }])?;
    let is_left = leaves(alloc, disk, count)?;
    Ok(kept == Err(JournalFault::Stopped) && is_left)
}

#[test]
fn each_call_stops_with_each_image(rt: HostRuntime) -> Result<(), Fail> {
    let mut call = 0u64;
    for [old, new, torn] in LEFT_BY_STOPS {
        call = call.saturating_add(1);
        let old = stop_leaves(rt.alloc(), call, Image::Old, old)?;
        let new = stop_leaves(rt.alloc(), call, Image::New, new)?;
        let torn = stop_leaves(rt.alloc(), call, Image::Torn, torn)?;
        assert!(rt; old && new && torn, "{call} {old} {new} {torn}");
    }
    Ok(())
}

/// Whether a start fails with this cause, and the next one reads all the ticks.
fn is_not_begun(
    alloc: Global,
    failing: &[u64],
    stops: &[Stop],
    cause: StartCause,
) -> Result<bool, AllocError> {
    match DiskJournal::start(alloc, disk_of(alloc, &TWO_BATCHES, failing, stops)?) {
        Ok(_) => Ok(false),
        Err(fault) => {
            let StartFault { cause: came, disk } = fault;
            let is_left = leaves(alloc, disk, 3)?;
            Ok(came == cause && is_left)
        }
    }
}

/// A start syncs, and asks for the length and for the bytes.
#[test]
fn each_call_of_a_start_fails_and_stops(rt: HostRuntime) -> Result<(), Fail> {
    for call in 1..=3u64 {
        let image = Image::Torn;
        let fails = is_not_begun(rt.alloc(), &[call], &[], StartCause::DiskFault)?;
        let stops = is_not_begun(
            rt.alloc(),
            &[],
            &[Stop { call, image }],
            StartCause::Stopped,
        )?;
        assert!(rt; fails && stops, "{call} {fails} {stops}");
    }
    Ok(())
}
