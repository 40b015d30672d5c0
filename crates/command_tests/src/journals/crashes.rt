//! A reserve and its commit over an empty disk take thirteen calls: the journal is begun by a sync, its length, a read, the
//! write of a closed gate and a sync, and each line is kept by a write, a sync, the write of its gate and a sync. Over the disk of
//! the reserve they take seven: three read the journal, and four keep the commit.

use super::{ONE, THREE, TWO};
use crate::calling::{Broken, Call, Ended, called};
use crate::texts::{ANSWER, COMMITTED, PROVISIONED};
use std::alloc::{AllocError, Global};
use std::test::Fail;
use std::thread::Threads;

/// How many of the two lines a call has answered, or a disk has kept.
#[derive(Clone, Copy, Debug, PartialEq, Eq)]
enum Lines {
    None,
    First,
    Both,
}

impl Lines {
    /// What is written where these lines are answered and then the disk fails.
    fn cut(self) -> &'static [&'static str] {
        match self {
            Lines::None => &["fault disk p1\n"],
            Lines::First => &[ANSWER, "fault disk p1\n"],
            Lines::Both => &[ANSWER, COMMITTED, "fault disk p1\n"],
        }
    }

    /// What is written where both lines and a provision come, and these have been kept.
    fn rest(self) -> &'static [&'static str] {
        match self {
            Lines::None => &[ANSWER, COMMITTED, PROVISIONED],
            Lines::First => &[COMMITTED, PROVISIONED],
            Lines::Both => &[PROVISIONED],
        }
    }
}

/// The number of the disk's call that fails, the lines that are answered then, and those that the disk has kept.
type Row = (u64, Lines, Lines);

/// Over an empty disk. A call that fails changes nothing.
const ROWS: [Row; 13] = [
    (1, Lines::None, Lines::None),
    (2, Lines::None, Lines::None),
    (3, Lines::None, Lines::None),
    (4, Lines::None, Lines::None),
    (5, Lines::None, Lines::None),
    (6, Lines::None, Lines::None),
    (7, Lines::None, Lines::None),
    (8, Lines::None, Lines::None),
    (9, Lines::None, Lines::First),
    (10, Lines::First, Lines::First),
    (11, Lines::First, Lines::First),
    (12, Lines::First, Lines::First),
    (13, Lines::First, Lines::Both),
];

/// Over the disk of the reserve.
const AGAIN: [Row; 7] = [
    (1, Lines::None, Lines::First),
    (2, Lines::None, Lines::First),
    (3, Lines::None, Lines::First),
    (4, Lines::None, Lines::First),
    (5, Lines::None, Lines::First),
    (6, Lines::None, Lines::First),
    (7, Lines::None, Lines::Both),
];

/// The two lines over the disk, where its call with this number fails.
fn failing_at(
    rt: &(impl Threads + Sync),
    alloc: Global,
    disk: &[u8],
    number: u64,
) -> Result<Ended, AllocError> {
    let call = Call {
        broken: Broken::Disk,
        number,
        ..Call::of("provide", TWO, disk)
    };
    called(rt, alloc, &call)
}

/// Whether both lines and a provision over the disk are answered as far as the disk hasn't kept them.
fn goes_on(
    rt: &(impl Threads + Sync),
    alloc: Global,
    disk: &[u8],
    kept: Lines,
) -> Result<bool, AllocError> {
    let second = called(rt, alloc, &Call::of("provide", THREE, disk))?;
    second.is(alloc, 0, kept.rest())
}

fn is_row(
    rt: &(impl Threads + Sync),
    alloc: Global,
    disk: &[u8],
    row: Row,
) -> Result<bool, AllocError> {
    let (number, answered, kept) = row;
    let first = failing_at(rt, alloc, disk, number)?;
    let is_cut = first.is(alloc, 7, answered.cut())?;
    Ok(is_cut && goes_on(rt, alloc, &first.disk, kept)?)
}

#[test]
fn each_call_fails_in_turn(rt: HostRuntime) -> Result<(), Fail> {
    for row in ROWS {
        let is_right = is_row(&rt, rt.alloc(), b"", row)?;
        assert!(rt; is_right, "{row:?}");
    }
    let reserved = called(&rt, rt.alloc(), &Call::of("provide", ONE, b""))?;
    for row in AGAIN {
        let is_right = is_row(&rt, rt.alloc(), &reserved.disk, row)?;
        assert!(rt; is_right, "again {row:?}");
    }
    Ok(())
}

/// Each write, and the lines that are kept where a crash before its sync leaves what was there, what it wrote, or that torn.
const WRITES: [(u64, [Lines; 3]); 5] = [
    (4, [Lines::None, Lines::None, Lines::None]),
    (6, [Lines::None, Lines::None, Lines::None]),
    (8, [Lines::None, Lines::First, Lines::None]),
    (10, [Lines::First, Lines::First, Lines::First]),
    (12, [Lines::First, Lines::Both, Lines::First]),
];

/// What was written, with each byte torn that wasn't there before.
fn torn(alloc: Global, old: &[u8], new: &[u8]) -> Result<Vec<u8>, AllocError> {
    let mut torn = Vec::new(alloc);
    for (place, byte) in new.iter().enumerate() {
        let is_old = old.get(place) == Some(byte);
        torn.push(if is_old { *byte } else { 0xa5 })?;
    }
    Ok(torn)
}

/// The write itself fails, and leaves what was there; the sync behind it fails, and leaves what was written.
fn is_written_row(
    rt: &(impl Threads + Sync),
    alloc: Global,
    number: u64,
    kept: [Lines; 3],
) -> Result<bool, AllocError> {
    let [if_old, if_new, if_torn] = kept;
    let old = failing_at(rt, alloc, b"", number)?;
    let new = failing_at(rt, alloc, b"", number.saturating_add(1))?;
    let torn = torn(alloc, &old.disk, &new.disk)?;
    let is_old = goes_on(rt, alloc, &old.disk, if_old)?;
    let is_new = goes_on(rt, alloc, &new.disk, if_new)?;
    let is_torn = goes_on(rt, alloc, &torn, if_torn)?;
    Ok(old.disk != new.disk && is_old && is_new && is_torn)
}

/// A crash within the write of a batch may also leave any front of it.
#[test]
fn each_image_of_each_write_goes_on(rt: HostRuntime) -> Result<(), Fail> {
    for (number, kept) in WRITES {
        let is_right = is_written_row(&rt, rt.alloc(), number, kept)?;
        assert!(rt; is_right, "{number}");
    }
    let old = failing_at(&rt, rt.alloc(), b"", 10)?;
    let new = failing_at(&rt, rt.alloc(), b"", 11)?;
    for length in old.disk.len()..new.disk.len() {
        let is_right = goes_on(&rt, rt.alloc(), &new.disk[..length], Lines::First)?;
        assert!(rt; is_right, "{length}");
    }
    Ok(())
}
