//! The lock, and the mark beside it.

ghost use Rattle.std.specs.Prelude.{◌≡◌, ◌≤◌, All, Option, IfOk, IfErr, IfSome, true};
ghost use Rattle.nsi_primitive.specs.Printable.{IsPrintable, IsRequest};
ghost use Rattle.nsi_primitive.specs.declared.entry.Entry.{Entry};
ghost use Rattle.json_primitives.specs.Lines.{line_of};
ghost use Rattle.provider_agent.specs.State.{State};
ghost use Rattle.shared_provider.specs.Asked.{took_entry, work_entry, is_work};
ghost use Rattle.shared_provider.specs.Book.{IsBook};
ghost use Rattle.shared_provider.specs.Holds.{HasHeld};
ghost use Rattle.shared_provider.specs.Calls.{HasCalled, IsHeld};

use crate::book::Book;
use crate::call::{CallFault, CallReply, call_fault, print_reply, read_request};
use crate::reply::{BookFault, Reply};
use durable_mark::{Mark, Seat};
use journal_entry::Journal;
use nsi_primitive::{Id, Message};
use std::alloc::Global;
use std::hint::spin_loop;
use std::marker::Model;
use std::sync::{Mutex, MutexGuard, Wait};

/// What its holder knows of how many entries are synced.
pub type Pass = Seat;

/// A provider that threads share. To contracts it is which one it is: each pass is one's.
#[derive(Drop)]
pub struct SharedProvider<J: Journal + Drop> {
    book: Mutex<Book<J>>,
    mark: Mark,
}

impl<J: Journal + Drop> Model for SharedProvider<J> {
    ghost use Rattle.durable_mark.specs.Rising.{MarkId};

    ghost Value = { MarkId };

    ghost view = { λ s. s.mark };
}

/// What is done under the lock for a request.
fn take_held<J: Journal>(
    book: &mut Book<J>,
    alloc: Global,
    message: Message,
) -> Result<Reply, BookFault>
    requires request { IsRequest message }
    requires printable { IsPrintable message }
    ensures held { HasHeld (λ s. took_entry s message) result }
    ensures printable { IfOk result (λ r. All IsPrintable r.messages.items) }
{
    book.facts();
    let result = book.took(alloc, message);
    book.facts();
    result
}

/// What is done under the lock for work.
fn work_held<J: Journal>(
    book: &mut Book<J>,
    alloc: Global,
    connection: Id,
) -> Result<Reply, BookFault>
    ensures held { HasHeld (λ s. work_entry s connection) result }
    ensures printable { IfOk result (λ r. All IsPrintable r.messages.items) }
{
    book.facts();
    let result = book.work(alloc, connection);
    book.facts();
    result
}

impl<J: Journal + Drop> SharedProvider<J> {
    /// The book behind a lock, and the first pass. Where memory is wanting, the book is given back.
    pub fn new(alloc: Global, book: Book<J>) -> Result<(SharedProvider<J>, Pass), Book<J>>
        ensures mark { IfOk result (λ r. r.1.mark ≡ r.0) }
        ensures seen { IfOk result (λ r. r.1.seen ≡ 0) }
        ensures back { IfErr result (λ b. b ≡ book) }
    {
        let Ok((mark, pass)) = Mark::new(alloc) else {
            return Err(book);
        };
        let book = Mutex::new(book);
        Ok((SharedProvider { book, mark }, pass))
    }

    /// Another pass, which knows as much.
    pub fn split(&self, pass: &mut Pass) -> Pass
        requires { pass.old.mark ≡ self.now }
        ensures kept { pass.new ≡ pass.old }
        ensures given { result ≡ pass.old }
    {
        self.mark.split(pass)
    }

    /// The book, once nobody else holds it.
    fn hold<R: Wait>(&self, rt: &R) -> MutexGuard<'_, Book<J>> {
        // A hold ends sooner than a sleep, so the lock is tried for a while first.
        for _ in 0..1_000u32 {
            if let Some(book) = self.book.try_lock() {
                return book;
            }
            spin_loop();
        }
        self.book.lock(rt)
    }

    fn take<R: Wait>(&self, rt: &R, alloc: Global, message: Message) -> Result<Reply, BookFault>
        requires request { IsRequest message }
        requires printable { IsPrintable message }
        ensures held { HasHeld (λ s. took_entry s message) result }
        ensures printable { IfOk result (λ r. All IsPrintable r.messages.items) }
    {
        let mut book = self.hold(rt);
        take_held(&mut book, alloc, message)
    }

    fn do_work<R: Wait>(&self, rt: &R, alloc: Global, connection: Id) -> Result<Reply, BookFault>
        ensures held { HasHeld (λ s. work_entry s connection) result }
        ensures printable { IfOk result (λ r. All IsPrintable r.messages.items) }
    {
        let mut book = self.hold(rt);
        work_held(&mut book, alloc, connection)
    }

    /// Raises the mark by what a hold made durable, and prints its messages. No lock is held.
    fn tell(
        &self,
        alloc: Global,
        pass: &mut Pass,
        answer: Result<Reply, BookFault>,
    ) -> Result<CallReply, CallFault>
        requires pass { pass.old.mark ≡ self.now }
        requires printable { IfOk answer (λ r. All IsPrintable r.messages.items) }
        ensures mark { pass.new.mark ≡ self.now }
        ensures risen { pass.old.seen ≤ pass.new.seen }
        ensures durable { IfOk result (λ r. r.durable ≤ pass.new.seen) }
        ensures held { (asked : State → Option Entry) →
            HasHeld asked answer → IsHeld asked result }
    {
        match answer {
            Ok(reply) => {
                self.mark.raise(pass, reply.durable);
                match print_reply(alloc, reply) {
                    Ok(reply) => Ok(reply),
                    Err(_) => Err(CallFault::NoMemory),
                }
            }
            Err(fault) => Err(call_fault(fault)),
        }
    }

    /// Takes the request of a line. Reading it and printing what it causes stand outside the lock.
    pub fn call<R: Wait>(
        &self,
        rt: &R,
        alloc: Global,
        pass: &mut Pass,
        line: &[u8],
    ) -> Result<CallReply, CallFault>
        requires { pass.old.mark ≡ self.now }
        ensures mark { pass.new.mark ≡ self.now }
        ensures risen { pass.old.seen ≤ pass.new.seen }
        ensures durable { IfOk result (λ r. r.durable ≤ pass.new.seen) }
        ensures called { HasCalled (line_of line.now) result }
    {
        match read_request(alloc, line) {
            Ok(message) => {
                let answer = self.take(rt, alloc, message);
                self.tell(alloc, pass, answer)
            }
            Err(fault) => Err(fault),
        }
    }

    /// Does the first work that waits on a connection, where some does.
    pub fn work<R: Wait>(
        &self,
        rt: &R,
        alloc: Global,
        pass: &mut Pass,
        connection: Id,
    ) -> Result<CallReply, CallFault>
        requires { pass.old.mark ≡ self.now }
        ensures mark { pass.new.mark ≡ self.now }
        ensures risen { pass.old.seen ≤ pass.new.seen }
        ensures durable { IfOk result (λ r. r.durable ≤ pass.new.seen) }
        ensures held { IsHeld (λ s. work_entry s connection) result }
        ensures work { IfOk result (λ r. IfSome r.event (λ x. is_work x.what ≡ true)) }
    {
        let answer = self.do_work(rt, alloc, connection);
        self.tell(alloc, pass, answer)
    }

    /// How many entries are synced. It takes no lock and no memory, and doesn't wait.
    pub fn durable(&self, pass: &mut Pass) -> u64
        requires { pass.old.mark ≡ self.now }
        ensures mark { pass.new.mark ≡ self.now }
        ensures seen { pass.new.seen ≡ result }
        ensures risen { pass.old.seen ≤ result }
    {
        self.mark.seen(pass)
    }

    /// The book, once nobody shares it any more. Which one it is isn't told, but what is true of every book.
    pub fn into_book(self) -> Book<J>
        ensures { IsBook result }
    {
        let SharedProvider { book, mark: _ } = self;
        let book = book.into_inner();
        book.facts();
        book
    }
}
