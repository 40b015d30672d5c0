//! A provider behind a lock, as a caller reaches it: by lines.

ghost use Rattle.std.specs.Prelude.{◌≡◌, All, IfOk, IfSome};
ghost use Rattle.nsi_primitive.specs.Printable.{IsPrintable};
ghost use Rattle.race_caller.specs.Askers.{IsAnswer, IsWork};

use crate::desk::{Answer, Desk, Work, answer_of, work_of};
use journal_entry::Journal;
use json_primitives::{LineFault, print_message, read_line};
use nsi_primitive::{Event, Id, Message, Parcel};
use shared_provider::{CallFault, CallReply, Pass, SharedProvider};
use std::alloc::{AllocError, Global};
use std::sync::Wait;
use stp_topology::Topology;

/// It is asked before each call, with the caller's number and the call's, both from 0. It changes no answer.
pub trait Gate {
    fn pass(&self, caller: u16, call: u32);
}

/// Through what a caller speaks to the provider.
#[derive(Drop)]
pub struct Door<'a, R, J: Journal + Drop, G> {
    pub rt: &'a R,
    pub alloc: Global,
    pub topology: &'a Topology,
    pub shared: &'a SharedProvider<J>,
    pub gate: &'a G,
}

/// The desk of one caller at a provider behind a lock.
#[derive(Drop)]
pub(crate) struct LockedDesk<'a, R, J: Journal + Drop, G> {
    pub door: &'a Door<'a, R, J, G>,
    pub pass: Pass,
    /// Its number among the callers, and of its next call, both from 0.
    pub caller: u16,
    pub calls: u32,
    ghost own: { pass.mark ≡ door.now.shared.now },
}

/// The message of a line; none where it is no message.
fn read_message(alloc: Global, line: &[u8]) -> Result<Option<Message>, AllocError>
    ensures { IfOk result (λ o. IfSome o IsPrintable) }
{
    match read_line(alloc, line) {
        Ok(Parcel::Message(message)) => Ok(Some(message)),
        Ok(Parcel::Ack(_)) => Ok(None),
        Err(LineFault::NoMemory) => Err(AllocError),
        Err(_) => Ok(None),
    }
}

/// The messages of lines; none where a line is no message.
fn messages_of(alloc: Global, lines: &[Vec<u8>]) -> Result<Option<Vec<Message>>, AllocError>
    ensures { IfOk result (λ o. IfSome o (λ v. All IsPrintable v.items)) }
{
    let mut messages = Vec::new(alloc);
    for line in lines {
        let Some(message) = read_message(alloc, line)? else {
            return Ok(None);
        };
        messages.push(message)?;
    }
    Ok(Some(messages))
}

fn let_go(event: Option<Event>) {
    drop(event);
}

/// What a request causes, as its reply tells it.
fn answer_in(alloc: Global, reply: CallReply) -> Result<Option<Answer>, AllocError>
    ensures { IfOk result (λ o. IfSome o IsAnswer) }
{
    let CallReply {
        place,
        event,
        lines,
        durable: _,
    } = reply;
    let_go(event);
    let messages = messages_of(alloc, &lines)?;
    Ok(answer_of(place, messages))
}

/// What was done, as its reply tells it.
fn work_in(alloc: Global, reply: CallReply) -> Result<Work, AllocError>
    ensures { IfOk result IsWork }
{
    let CallReply {
        place,
        event,
        lines,
        durable: _,
    } = reply;
    match messages_of(alloc, &lines) {
        Ok(messages) => Ok(work_of(place, event, messages)),
        Err(_) => {
            let_go(event);
            Err(AllocError)
        }
    }
}

impl<'a, R: Wait, J: Journal + Drop, G: Gate> Desk for LockedDesk<'a, R, J, G> {
    ghost use Rattle.std.specs.Prelude.{None};

    ghost book = { λ _. None };

    fn hand(&mut self, alloc: Global, request: &Message) -> Result<Option<Answer>, AllocError> {
        let door = self.door;
        door.gate.pass(self.caller, self.calls);
        self.calls = self.calls.wrapping_add(1);
        let line = print_message(alloc, request)?;
        match door.shared.call(door.rt, alloc, &mut self.pass, &line) {
            Ok(reply) => answer_in(alloc, reply),
            Err(CallFault::NoMemory) => Err(AllocError),
            Err(_) => Ok(None),
        }
    }

    fn have_done(&mut self, alloc: Global, connection: Id) -> Result<Work, AllocError> {
        let door = self.door;
        match door.shared.work(door.rt, alloc, &mut self.pass, connection) {
            Ok(reply) => work_in(alloc, reply),
            Err(CallFault::NoMemory) => Err(AllocError),
            Err(_) => Ok(Work::Refused),
        }
    }
}
