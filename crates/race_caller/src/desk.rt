//! A provider, as a caller reaches it.

ghost use Rattle.std.specs.Prelude.{◌≡◌, All, IfOk, OnOk, IfSome, IfNone, Option, Some, false};
ghost use Rattle.nsi_primitive.specs.Printable.{IsPrintable};
ghost use Rattle.shared_provider.specs.Book.{Book as ABook};
ghost use Rattle.race_caller.specs.Askers.{IsAnswer, IsWork};
ghost use Rattle.race_caller.specs.Alone.{IsHanded, IsDone, HasParts, LacksPart, IsWorkOf, done_of, lacks_memory};

use journal_entry::Journal;
use nsi_primitive::{Event, Id, Message};
use shared_provider::{Book, BookFault, Reply};
use std::alloc::{AllocError, Global};

/// What a request causes, which was taken at a place of the history.
#[derive(Drop)]
pub struct Answer {
    pub place: u64,
    pub messages: Vec<Message>,
}

/// Work that was done, its place in the history, and what it causes.
#[derive(Drop)]
pub struct DoneWork {
    pub place: u64,
    pub event: Event,
    pub messages: Vec<Message>,
}

/// What became of the work on a connection.
#[derive(Drop)]
pub enum Work {
    /// None waits.
    Idle,
    Done(DoneWork),
    /// The provider takes nothing more, or it isn't known what was done.
    Refused,
}

/// A provider, as a caller reaches it.
pub trait Desk {
    /// The provider's book, where nobody else can change it.
    ghost book: { Self → Option ABook };

    /// Hands a request over. What it causes, where it was taken.
    fn hand(&mut self, alloc: Global, request: &Message) -> Result<Option<Answer>, AllocError>
        requires { IsPrintable request.now }
        ensures printable { IfOk result (λ o. IfSome o IsAnswer) }
        ensures handed { (b : ABook) → book self.old ≡ Some b →
            IfOk result (IsHanded b request.now (book self.new)) };

    /// Has the first work done that waits on a connection.
    fn have_done(&mut self, alloc: Global, connection: Id) -> Result<Work, AllocError>
        ensures printable { IfOk result IsWork }
        ensures done { (b : ABook) → book self.old ≡ Some b →
            IfOk result (IsDone b connection (book self.new)) };
}

fn let_go(event: Option<Event>) {
    drop(event);
}

/// What a request causes, where it was taken and all messages of it are known.
pub(crate) fn answer_of(place: Option<u64>, messages: Option<Vec<Message>>) -> Option<Answer>
    requires { IfSome messages (λ v. All IsPrintable v.items) }
    ensures printable { IfSome result IsAnswer }
    ensures parts { IfSome result (HasParts place messages) }
    ensures none { IfNone result (LacksPart place messages) }
{
    let place = place?;
    let messages = messages?;
    Some(Answer { place, messages })
}

/// What was done, where there is an event, its place is known and all messages of it are.
pub(crate) fn work_of(
    place: Option<u64>,
    event: Option<Event>,
    messages: Option<Vec<Message>>,
) -> Work
    requires { IfSome messages (λ v. All IsPrintable v.items) }
    ensures printable { IsWork result }
    ensures of { IsWorkOf place event messages result }
{
    let Some(event) = event else {
        return Work::Idle;
    };
    match answer_of(place, messages) {
        Some(answer) => with_event(answer, event),
        None => {
            let_go(Some(event));
            Work::Refused
        }
    }
}

fn with_event(answer: Answer, event: Event) -> Work
    requires { IsAnswer answer }
    ensures printable { IsWork result }
    ensures of { result ≡ done_of answer event }
{
    let Answer { place, messages } = answer;
    Work::Done(DoneWork {
        place,
        event,
        messages,
    })
}

/// A book that takes nothing, unless it only wants memory.
fn refused(fault: BookFault) -> Result<(), AllocError>
    ensures { OnOk result (lacks_memory fault ≡ false) }
{
    match fault {
        BookFault::NoMemory => Err(AllocError),
        BookFault::DiskFault { .. } | BookFault::Closed { .. } | BookFault::Full => Ok(()),
    }
}

/// A provider that nobody shares.
impl<J: Journal> Desk for Book<J> {
    ghost book = { λ b. Some b.book };

    fn hand(&mut self, alloc: Global, request: &Message) -> Result<Option<Answer>, AllocError> {
        if !request.is_request() {
            return Ok(None);
        }
        match self.took(alloc, request.copy()?) {
            Ok(reply) => {
                let Reply {
                    place,
                    event,
                    durable: _,
                    messages,
                } = reply;
                let_go(event);
                Ok(answer_of(place, Some(messages)))
            }
            Err(fault) => {
                refused(fault)?;
                self.facts();
                Ok(None)
            }
        }
    }

    fn have_done(&mut self, alloc: Global, connection: Id) -> Result<Work, AllocError> {
        match self.work(alloc, connection) {
            Ok(reply) => Ok(work_of(reply.place, reply.event, Some(reply.messages))),
            Err(fault) => {
                refused(fault)?;
                self.facts();
                Ok(Work::Refused)
            }
        }
    }
}
