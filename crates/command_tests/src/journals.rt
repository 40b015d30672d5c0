//! The journal of `provide`, over a disk in memory.

mod crashes;

use crate::calling::{Broken, Call, called};
use crate::texts::{ANSWER, COMMIT, COMMITTED, PROVISION, PROVISIONED, RESERVE, TICK, TOPOLOGY};
use std::alloc::{AllocError, Global};
use std::test::Fail;
use std::thread::Threads;

/// What a disk holds: these bytes, what `provide` leaves of an empty disk with this input, what it held before, or anything.
#[derive(Clone, Copy)]
enum Disk {
    Of(&'static [u8]),
    LeftBy(&'static [&'static str]),
    Same,
    Any,
}

const NONE: &[&str] = &[TOPOLOGY];

const ONE: &[&str] = &[TOPOLOGY, RESERVE];

const TWO: &[&str] = &[TOPOLOGY, RESERVE, COMMIT];

const THREE: &[&str] = &[TOPOLOGY, RESERVE, COMMIT, PROVISION];

const EMPTY: Disk = Disk::Of(b"");

/// What fails, and at which call.
const NOTHING: (Broken, u64) = (Broken::Nothing, 0);

/// What is tried, the disk before, the words, the input, what fails, the status, what is written, and the disk behind.
type Row = (
    &'static str,
    Disk,
    &'static str,
    &'static [&'static str],
    (Broken, u64),
    u8,
    &'static [&'static str],
    Disk,
);

/// What is kept, and what a later call makes of it. The reserve, its work and the sync are three events; entries that are read
/// count too, and a sync of an earlier call doesn't.
const KEPT: [Row; 16] = [
    (
        "a repeated commit",
        EMPTY,
        "provide",
        &[TOPOLOGY, RESERVE, COMMIT, COMMIT],
        NOTHING,
        0,
        &[ANSWER, COMMITTED],
        Disk::LeftBy(TWO),
    ),
    (
        "a second call",
        Disk::LeftBy(TWO),
        "provide",
        THREE,
        NOTHING,
        0,
        &[PROVISIONED],
        Disk::LeftBy(THREE),
    ),
    (
        "a commit later",
        Disk::LeftBy(ONE),
        "provide",
        TWO,
        NOTHING,
        0,
        &[COMMITTED],
        Disk::LeftBy(TWO),
    ),
    (
        "three events",
        EMPTY,
        "provide --events 3",
        ONE,
        NOTHING,
        0,
        &[ANSWER],
        Disk::LeftBy(ONE),
    ),
    (
        "two events",
        EMPTY,
        "provide --events 2",
        ONE,
        NOTHING,
        8,
        &["fault long\n"],
        Disk::Of(b"\0"),
    ),
    (
        "two entries",
        Disk::LeftBy(ONE),
        "provide --events 1",
        NONE,
        NOTHING,
        8,
        &["fault long\n"],
        Disk::Same,
    ),
    (
        "two entries fit",
        Disk::LeftBy(ONE),
        "provide --events 2",
        ONE,
        NOTHING,
        0,
        &[],
        Disk::Same,
    ),
    (
        "a tick behind them",
        Disk::LeftBy(ONE),
        "provide --events 3",
        &[TOPOLOGY, "tick 1\n"],
        NOTHING,
        8,
        &["fault long\n"],
        Disk::Same,
    ),
    (
        "a tick that fits",
        Disk::LeftBy(ONE),
        "provide --events 4",
        &[TOPOLOGY, "tick 1\n"],
        NOTHING,
        0,
        &[],
        Disk::Any,
    ),
    (
        "a failed write",
        EMPTY,
        "provide",
        ONE,
        (Broken::Write, 1),
        3,
        &[],
        Disk::LeftBy(ONE),
    ),
    (
        "a failed read",
        EMPTY,
        "provide",
        ONE,
        (Broken::Read, 2),
        2,
        &[ANSWER, "fault read\n"],
        Disk::LeftBy(ONE),
    ),
    (
        "others' entries",
        Disk::Of(OTHERS),
        "provide",
        &[TOPOLOGY, "tick 6\ntick 7\n", RESERVE],
        NOTHING,
        0,
        &[TICK],
        Disk::Any,
    ),
    (
        "four of others",
        Disk::Of(OTHERS),
        "provide --events 3",
        NONE,
        NOTHING,
        8,
        &["fault long\n"],
        Disk::Same,
    ),
    (
        "four fit",
        Disk::Of(OTHERS),
        "provide --events 4",
        NONE,
        NOTHING,
        0,
        &[],
        Disk::Same,
    ),
    (
        "a tick behind four",
        Disk::Of(OTHERS),
        "provide --events 5",
        &[TOPOLOGY, "tick 7\n"],
        NOTHING,
        8,
        &["fault long\n"],
        Disk::Same,
    ),
    (
        "it fits behind four",
        Disk::Of(OTHERS),
        "provide --events 6",
        &[TOPOLOGY, "tick 7\n"],
        NOTHING,
        0,
        &[],
        Disk::Any,
    ),
];

/// One batch: a tick at 5, an ask, a query of p1 under the first correlationId, and a tick at 7. No provider takes the ask, and a
/// reserve under that correlationId is answered by nothing.
const OTHERS: &[u8] = b"\x01\0\0\0\0\0\0\0\xbe\x01\
    \x04\0\0\0\0\0\0\0\x05\
    \x01\0\0\0\0\0\0\0\x05\0\0\0\0\0\0\0\0\0\0\0\x07summary\
    \x02\0\0\0\0\0\0\0\x05\0\0\0\0\0\0\0\x7e{\"correlationId\":\"urn:uuid:00000000-0001-8000-8000-000000000001\",\"kind\":\"querySummary\",\"providerNSA\":\"p1\",\"requesterNSA\":\"r1\"}\
    \x04\0\0\0\0\0\0\0\x07\0";

/// Bytes that are no journal, and what is told of them.
const WRONG: [(&str, &[u8], &str); 12] = [
    (
        "one byte past the end",
        b"\x01\0\0\0\0\0\0\0\x05\x01",
        "fault journal p1 0\n",
    ),
    (
        "no batch behind nine bytes",
        b"\x01\0\0\0\0\0\0\0\0",
        "fault journal p1 0\n",
    ),
    (
        "nine bytes",
        b"\x01\x01\x01\x01\x01\x01\x01\x01\x01",
        "fault journal p1 0\n",
    ),
    (
        "no form",
        b"\x01\0\0\0\0\0\0\0\x0a\x03\x04\0\0\0\0\0\0\0\x05\0",
        "fault journal p1 0\n",
    ),
    (
        "no entry",
        b"\x01\0\0\0\0\0\0\0\x01\x01\0",
        "fault journal p1 0\n",
    ),
    (
        "an unknown tag",
        b"\x01\0\0\0\0\0\0\0\x0a\x01\x07\0\0\0\0\0\0\0\x05\0",
        "fault journal p1 0\n",
    ),
    (
        "one byte more",
        b"\x01\0\0\0\0\0\0\0\x0b\x01\x04\0\0\0\0\0\0\0\x05\0\0",
        "fault journal p1 0\n",
    ),
    (
        "one byte less",
        b"\x01\0\0\0\0\0\0\0\x09\x01\x04\0\0\0\0\0\0\0\0",
        "fault journal p1 0\n",
    ),
    (
        "no next gate",
        b"\x01\0\0\0\0\0\0\0\x0a\x01\x04\0\0\0\0\0\0\0\x05",
        "fault journal p1 0\n",
    ),
    (
        "the second batch",
        b"\x01\0\0\0\0\0\0\0\x0a\x01\x04\0\0\0\0\0\0\0\x05\x01\0\0\0\0\0\0\0\x05\x01",
        "fault journal p1 19\n",
    ),
    (
        "a line that isn't as it is printed: a blank stands behind its first colon",
        b"\x01\0\0\0\0\0\0\0\x91\x01\x02\0\0\0\0\0\0\0\x05\0\0\0\0\0\0\0\x7f{\"correlationId\": \"urn:uuid:00000000-0001-8000-8000-000000000001\",\"kind\":\"querySummary\",\"providerNSA\":\"p1\",\"requesterNSA\":\"r1\"}\0",
        "fault journal p1 0\n",
    ),
    (
        "a line whose keys stand in another order",
        b"\x01\0\0\0\0\0\0\0\x90\x01\x02\0\0\0\0\0\0\0\x05\0\0\0\0\0\0\0\x7e{\"kind\":\"querySummary\",\"correlationId\":\"urn:uuid:00000000-0001-8000-8000-000000000001\",\"providerNSA\":\"p1\",\"requesterNSA\":\"r1\"}\0",
        "fault journal p1 0\n",
    ),
];

/// Disks that are as an empty one: of less than nine bytes, whatever they are, and with a first gate that isn't open, whatever is
/// behind it.
const AS_EMPTY: [&[u8]; 13] = [
    b"",
    b"\x01",
    b"\x01\x01",
    b"\x01\x01\x01",
    b"\x01\x01\x01\x01",
    b"\x01\x01\x01\x01\x01",
    b"\x01\x01\x01\x01\x01\x01",
    b"\x01\x01\x01\x01\x01\x01\x01",
    b"\x01\x01\x01\x01\x01\x01\x01\x01",
    b"\0\0\0\0\0\0\0\0\0",
    b"\0\xff\xff\xff\xff\xff\xff\xff\xff\x01\x01\x01",
    b"\x02\x01\x01\x01\x01\x01\x01\x01\x01\x01\x01\x01\x01\x01\x01\x01\x01\x01\x01\x01\x01\x01\x01\x01",
    b"\xa5\0\0\0\0\0\0\0\x0a\x01\x07\0\0\0\0\0\0\0\x05\x01",
];

/// A batch of a tick at 5, and behind it a gate that is neither open nor closed, and a batch of a tick at 9.
const TORN_GATE: &[u8] =
    b"\x01\0\0\0\0\0\0\0\x0a\x01\x04\0\0\0\0\0\0\0\x05\xa5\0\0\0\0\0\0\0\x0a\x01\x04\0\0\0\0\0\0\0\x09\0";

/// A disk that is no journal; its first call fails. Words and the topology are told before it is looked at.
const WORST: Disk = Disk::Of(b"\x01\0\0\0\0\0\0\0\x05\x01");

const FIRST: (Broken, u64) = (Broken::Disk, 1);

const LOOKED_AT: [Row; 6] = [
    (
        "a torn gate is closed",
        Disk::Of(TORN_GATE),
        "provide",
        &[TOPOLOGY, "tick 4\ntick 5\n"],
        NOTHING,
        0,
        &[TICK],
        Disk::Any,
    ),
    (
        "words",
        WORST,
        "provide --events 0",
        &[],
        FIRST,
        4,
        &["fault usage\n"],
        Disk::Same,
    ),
    (
        "a fault",
        WORST,
        "provide",
        &["agent p1 provider 60\nstp p1 A 0\n---\n"],
        FIRST,
        5,
        &["fault topology 2 Word\n"],
        Disk::Same,
    ),
    (
        "no end",
        WORST,
        "provide",
        &["agent p1 provider 60\n"],
        FIRST,
        5,
        &["fault topology 2 Word\n"],
        Disk::Same,
    ),
    (
        "check",
        WORST,
        "check",
        &["agent p1 provider 60\n---\n"],
        FIRST,
        0,
        &["agents 1 stps 0 sdps 0\n"],
        Disk::Same,
    ),
    (
        "the disk",
        WORST,
        "provide",
        &["agent p1 provider 60\n---\n"],
        FIRST,
        7,
        &["fault disk p1\n"],
        Disk::Any,
    ),
];

/// The bytes of the disk; those of the same or any other one are these.
fn bytes_of(
    rt: &(impl Threads + Sync),
    alloc: Global,
    disk: Disk,
    other: &[u8],
) -> Result<Vec<u8>, AllocError> {
    match disk {
        Disk::Of(bytes) => Vec::from_slice(alloc, bytes),
        Disk::LeftBy(input) => Ok(called(rt, alloc, &Call::of("provide", input, b""))?.disk),
        Disk::Same | Disk::Any => Vec::from_slice(alloc, other),
    }
}

/// Whether the row is as it says.
fn is_so(rt: &(impl Threads + Sync), alloc: Global, row: &Row) -> Result<bool, AllocError> {
    let (_, before, words, input, broken, status, written, behind) = *row;
    let disk = bytes_of(rt, alloc, before, b"")?;
    let (broken, number) = broken;
    let call = Call {
        broken,
        number,
        ..Call::of(words, input, disk.as_slice())
    };
    let ended = called(rt, alloc, &call)?;
    let is_written = ended.is(alloc, status, written)?;
    let is_any = matches!(behind, Disk::Any);
    let wanted = bytes_of(rt, alloc, behind, disk.as_slice())?;
    Ok(is_written && (is_any || ended.disk == wanted))
}

#[test]
fn what_is_kept_is_read_again(rt: HostRuntime) -> Result<(), Fail> {
    for row in &KEPT {
        let is_right = is_so(&rt, rt.alloc(), row)?;
        assert!(rt; is_right, "{}", row.0);
    }
    for row in &LOOKED_AT {
        let is_right = is_so(&rt, rt.alloc(), row)?;
        assert!(rt; is_right, "{}", row.0);
    }
    Ok(())
}

/// Before any line is looked at.
#[test]
fn no_journal_is_told_and_less_is_empty(rt: HostRuntime) -> Result<(), Fail> {
    for (what, disk, told) in &WRONG {
        let ended = called(&rt, rt.alloc(), &Call::of("provide", ONE, disk))?;
        let is_told = ended.is(rt.alloc(), 10, &[told])?;
        assert!(rt; is_told && ended.disk.as_slice() == *disk, "{what}");
    }
    let wanted = called(&rt, rt.alloc(), &Call::of("provide", ONE, b""))?;
    for disk in &AS_EMPTY {
        let ended = called(&rt, rt.alloc(), &Call::of("provide", ONE, disk))?;
        let is_answered = ended.is(rt.alloc(), 0, &[ANSWER])?;
        assert!(rt; is_answered && ended.disk == wanted.disk, "{disk:?}");
    }
    Ok(())
}
