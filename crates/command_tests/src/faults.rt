//! `run` with a loss, a repeat and two stops, of which each call fails in turn: each of each disk, each write and each read; and
//! its input, cut behind each byte.

use crate::calling::{Broken, Call, Ended, called, called_with};
use crate::texts::text_of;
use std::alloc::{AllocError, Global};
use std::test::Fail;
use std::thread::Threads;

/// Two networks below an aggregator. A confirmation is lost, the commit comes twice, and two disks stop.
const INPUT: &[&str] = &[
    "agent west provider 60\nagent east provider 60\nagent hub aggregator\nagent lab requester hub\n",
    "stp west w:lab 1000\nstp west w:1 1000\nstp east e:1 1000\nstp east e:store 1000\n",
    "sdp w:1 e:1\nchild hub west\nchild hub east\n---\n",
    "lose east hub reserveConfirmed 1\nrepeat lab hub reserveCommit 1\nstop hub 39 old\nstop west 44 new\n",
    "at 0\nask lab reserve backup w:lab e:store 600 100 200\nat 1\nat 2\nask lab commit backup\n",
    "at 3\nat 4\nask lab provision backup\nat 5\n",
];

/// No disk is called as often, and nothing is written or read as often.
const MOST_CALLS: u64 = 120;

fn call_of(broken: Broken, agent: &'static str, number: u64) -> Call<'static> {
    Call {
        words: "run",
        input: INPUT,
        disk: b"",
        broken,
        agent,
        number,
    }
}

/// Some front of the whole text, and this line behind it.
fn is_front_with(whole: &[u8], written: &[u8], line: &[u8]) -> bool {
    if written.len() < line.len() {
        return false;
    }
    let (front, last) = written.split_at(written.len() - line.len());
    last == line && whole.starts_with(front)
}

/// Whether it ended as without the fault, or with that status, some front of the text, and that line.
fn is_told(whole: &Ended, ended: &Ended, status: u8, line: &str) -> bool {
    if ended.status == 0 {
        return ended.written.as_slice() == whole.written.as_slice();
    }
    ended.status == status && is_front_with(&whole.written, &ended.written, line.as_bytes())
}

/// What fails, whose disk if it is one, and with which status and line a run ends then.
#[derive(Clone, Copy, Drop)]
struct Fault {
    broken: Broken,
    agent: &'static str,
    status: u8,
    line: &'static str,
}

/// How many calls fail, one after another from the first one on, until no more are made; none where one of them isn't told.
fn told_calls(rt: &(impl Threads + Sync), alloc: Global, fault: &Fault) -> Result<u64, AllocError> {
    let whole = called(rt, alloc, &call_of(Broken::Nothing, fault.agent, 0))?;
    for number in 1..=MOST_CALLS {
        let ended = called(rt, alloc, &call_of(fault.broken, fault.agent, number))?;
        if !is_told(&whole, &ended, fault.status, fault.line) {
            return Ok(0);
        }
        if ended.status == 0 {
            return Ok(number - 1);
        }
    }
    Ok(0)
}

fn told_calls_of(
    rt: &(impl Threads + Sync),
    alloc: Global,
    agent: &'static str,
    line: &'static str,
) -> Result<u64, AllocError> {
    let fault = Fault {
        broken: Broken::Disk,
        agent,
        status: 7,
        line,
    };
    told_calls(rt, alloc, &fault)
}

#[test]
fn each_failing_call_of_a_provider_that_stops_is_told(rt: HostRuntime) -> Result<(), Fail> {
    let calls = told_calls_of(&rt, rt.alloc(), "west", "fault disk west\n")?;
    assert!(rt; calls >= 44, "{calls}");
    Ok(())
}

#[test]
fn each_failing_call_of_another_provider_is_told(rt: HostRuntime) -> Result<(), Fail> {
    let calls = told_calls_of(&rt, rt.alloc(), "east", "fault disk east\n")?;
    assert!(rt; calls >= 20, "{calls}");
    Ok(())
}

#[test]
fn each_failing_call_of_an_aggregator_that_stops_is_told(rt: HostRuntime) -> Result<(), Fail> {
    let calls = told_calls_of(&rt, rt.alloc(), "hub", "fault disk hub\n")?;
    assert!(rt; calls >= 39, "{calls}");
    Ok(())
}

#[test]
fn each_failing_call_of_a_requester_is_told(rt: HostRuntime) -> Result<(), Fail> {
    let calls = told_calls_of(&rt, rt.alloc(), "lab", "fault disk lab\n")?;
    assert!(rt; calls >= 20, "{calls}");
    Ok(())
}

#[test]
fn each_failing_write_is_told(rt: HostRuntime) -> Result<(), Fail> {
    let fault = Fault {
        broken: Broken::Write,
        agent: "hub",
        status: 3,
        line: "",
    };
    let calls = told_calls(&rt, rt.alloc(), &fault)?;
    assert!(rt; calls >= 6, "{calls}");
    Ok(())
}

#[test]
fn each_failing_read_is_told(rt: HostRuntime) -> Result<(), Fail> {
    let fault = Fault {
        broken: Broken::Read,
        agent: "hub",
        status: 2,
        line: "fault read\n",
    };
    let calls = told_calls(&rt, rt.alloc(), &fault)?;
    assert!(rt; calls >= 1, "{calls}");
    Ok(())
}

/// Whether all of an input is played, or its last line is told as a fault.
fn is_played_or_refused(ended: &Ended) -> bool {
    let written = ended.written.as_slice();
    match ended.status {
        0 => written.ends_with(b"\n") && !written.starts_with(b"fault"),
        5 | 6 => written.ends_with(b"\n") && written.starts_with(b"fault"),
        _ => false,
    }
}

fn cut_input(alloc: Global, end: usize) -> Result<Vec<u8>, AllocError> {
    let text = text_of(alloc, INPUT)?;
    let bytes = text.as_bytes();
    Vec::from_slice(alloc, &bytes[..end.min(bytes.len())])
}

#[test]
fn an_input_may_end_behind_each_byte(rt: HostRuntime) -> Result<(), Fail> {
    let call = call_of(Broken::Nothing, "hub", 0);
    let length = text_of(rt.alloc(), INPUT)?.as_bytes().len();
    for end in 0..=length {
        let ended = called_with(&rt, rt.alloc(), &call, cut_input(rt.alloc(), end)?)?;
        assert!(rt; is_played_or_refused(&ended), "{end}");
    }
    Ok(())
}
