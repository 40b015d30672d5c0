//! A source or a sink that fails at a call, and an input that is too long.

use crate::calling::{Broken, Call, called, called_with};
use crate::texts::{ASK, ASKED, TICK, TOPOLOGY};
use std::alloc::{AllocError, Global};
use std::test::Fail;

/// Four lines, of which the last has no end. The second begins in the first piece of the input and ends in the next one.
const FOUR: &[&str] = &[TOPOLOGY, "tick a\ntick LONG\ntick c\ntick d"];

const SECOND: &str = "{\"errorId\":\"PAYLOAD\",\"fault\":\"Tick\",\"kind\":\"error\",\"line\":7}\n";

const THIRD: &str = "{\"errorId\":\"PAYLOAD\",\"fault\":\"Tick\",\"kind\":\"error\",\"line\":8}\n";

const FOURTH: &str = "{\"errorId\":\"PAYLOAD\",\"fault\":\"Tick\",\"kind\":\"error\",\"line\":9}\n";

const READ: &str = "fault read\n";

/// Two joined providers below an aggregator, and two paths.
const PATHS: &[&str] = &[
    "agent p1 provider 60
agent p2 provider 60
agent a1 aggregator
agent r1 requester a1
stp p1 A 1000
stp p1 B 1000
stp p2 C 1000
stp p2 D 1000
sdp B C
child a1 p1
child a1 p2
---
path a1 A B
path a1 A D
",
];

const COUNTS: &str = "agents 4 stps 4 sdps 1\n";

/// What is generated without any reserve.
const LOAD: &str = "agent p0 provider 60
agent p1 provider 60
agent p2 provider 60
agent p3 provider 60
agent a0 aggregator
agent r0 requester a0
agent r1 requester a0
agent r2 requester a0
agent r3 requester a0
stp p0 p0.a 1000
stp p0 p0.b 1000
stp p0 p0.w 4000
stp p0 p0.e 4000
stp p1 p1.a 1000
stp p1 p1.b 1000
stp p1 p1.w 4000
stp p1 p1.e 4000
stp p2 p2.a 1000
stp p2 p2.b 1000
stp p2 p2.w 4000
stp p2 p2.e 4000
stp p3 p3.a 1000
stp p3 p3.b 1000
stp p3 p3.w 4000
stp p3 p3.e 4000
sdp p0.e p1.w
sdp p1.e p2.w
sdp p2.e p3.w
child a0 p0
child a0 p1
child a0 p2
child a0 p3
---
";

const GENERATE: &str = "generate --from 0 --size 0";

/// The words, the input, what fails at which call, the status, and what is written.
type Row = (
    &'static str,
    &'static [&'static str],
    Broken,
    u64,
    u8,
    &'static [&'static str],
);

/// Of the four lines the input is read in two pieces; the third call meets its end, where the last line is answered, and the
/// fourth meets it once more. Each answer is one write. `check` and `run` read all before they write anything.
const ROWS: [Row; 27] = [
    ("provide", FOUR, Broken::Read, 1, 2, &[READ]),
    ("provide", FOUR, Broken::Read, 2, 2, &[TICK, READ]),
    (
        "provide",
        FOUR,
        Broken::Read,
        3,
        2,
        &[TICK, SECOND, THIRD, READ],
    ),
    (
        "provide",
        FOUR,
        Broken::Read,
        4,
        2,
        &[TICK, SECOND, THIRD, FOURTH, READ],
    ),
    (
        "provide",
        FOUR,
        Broken::Read,
        5,
        0,
        &[TICK, SECOND, THIRD, FOURTH],
    ),
    ("provide", FOUR, Broken::Write, 1, 3, &[]),
    ("provide", FOUR, Broken::Write, 2, 3, &[TICK]),
    ("provide", FOUR, Broken::Write, 3, 3, &[TICK, SECOND]),
    ("provide", FOUR, Broken::Write, 4, 3, &[TICK, SECOND, THIRD]),
    (
        "provide",
        FOUR,
        Broken::Write,
        5,
        0,
        &[TICK, SECOND, THIRD, FOURTH],
    ),
    ("provide", FOUR, Broken::ReadAndWrite, 2, 3, &[TICK]),
    ("provide", &[TOPOLOGY, "{\n"], Broken::Read, 1, 2, &[READ]),
    ("provide", &[TOPOLOGY, "{\n"], Broken::Write, 1, 3, &[]),
    ("check", PATHS, Broken::Read, 1, 2, &[READ]),
    ("check", PATHS, Broken::Read, 2, 2, &[READ]),
    ("check", PATHS, Broken::Write, 1, 3, &[]),
    ("check", PATHS, Broken::Write, 2, 3, &[COUNTS]),
    (
        "check",
        PATHS,
        Broken::Write,
        3,
        3,
        &[COUNTS, "path p1 A B\n"],
    ),
    (GENERATE, &[], Broken::Read, 1, 0, &[LOAD]),
    (GENERATE, &[], Broken::Write, 1, 3, &[]),
    ("run", &[TOPOLOGY, "{\n"], Broken::Write, 1, 3, &[]),
    ("run", &[TOPOLOGY, ASK], Broken::Read, 1, 2, &[READ]),
    ("run", &[TOPOLOGY, ASK], Broken::Read, 2, 2, &[READ]),
    ("run", &[TOPOLOGY, ASK], Broken::Write, 1, 3, &[]),
    ("run", &[TOPOLOGY, ASK], Broken::Write, 2, 3, &[ASKED]),
    (
        "run",
        &[TOPOLOGY, ASK],
        Broken::Write,
        3,
        0,
        &[ASKED, "settled 15\n"],
    ),
    ("run --summary", &[TOPOLOGY, ASK], Broken::Write, 1, 3, &[]),
];

#[test]
fn failed_calls_are_told(rt: HostRuntime) -> Result<(), Fail> {
    for (words, input, broken, number, status, written) in &ROWS {
        let call = Call {
            words,
            input,
            disk: b"",
            broken: *broken,
            agent: "p1",
            number: *number,
        };
        let ended = called(&rt, rt.alloc(), &call)?;
        let is_right = ended.is(rt.alloc(), *status, written)?;
        assert!(rt; is_right, "{words} {broken:?} {number}");
    }
    Ok(())
}

/// The text behind a comment, so many bytes together.
fn filled(alloc: Global, text: &str, size: usize) -> Result<Vec<u8>, AllocError> {
    let mut input = vec![in alloc; b'#'; size.saturating_sub(text.len())]?;
    input.extend_from_slice(text.as_bytes())?;
    Ok(input)
}

/// How many bytes there are, the text behind them, the status, and what is written.
const SIZES: [(usize, &str, u8, &str); 2] = [
    (
        67_108_864,
        "\nagent a1 aggregator\n---\n",
        0,
        "agents 1 stps 0 sdps 0\n",
    ),
    (67_108_865, "\nno form\n---\n", 8, "fault long\n"),
];

/// One byte more than is taken is told before a fault of the topology.
#[test]
fn the_size_is_met_and_passed(rt: HostRuntime) -> Result<(), Fail> {
    for (size, text, status, written) in &SIZES {
        let input = filled(rt.alloc(), text, *size)?;
        let ended = called_with(&rt, rt.alloc(), &Call::of("check", &[], b""), input)?;
        let is_right = ended.is(rt.alloc(), *status, &[written])?;
        assert!(rt; is_right, "{size}");
    }
    Ok(())
}
