//! Messages that wait for their acknowledgement, and messages that were taken.

ghost use Rattle.std.specs.Prelude.{◌≡◌, ◌++◌, false, length, OnOk, OnErr};
ghost use Rattle.std.specs.Prelude.{List as Sequence};
ghost use Rattle.std.specs.Map.Iter.{ShowsInOrder, deref};
ghost use Rattle.nsi_primitive.specs.declared.message.Message.{Message as MessageValue};
ghost use Rattle.message_retry.specs.Taken.{is_taken};
ghost use Rattle.message_retry.specs.Retry.{Retry as Kept};
ghost use Rattle.message_retry.specs.Retry.{no_retry, is_old, saw, is_waiting, without};

use crate::heard::HeardMessages;
use crate::outbox::Outbox;
use crate::taken::TakenRequests;
use nsi_primitive::{Header, Identity, Message};
use std::alloc::{AllocError, Global};
use std::collections::btree_map::Values;
use std::marker::Model;

/// What an agent keeps so that each message is taken once, and each of its own is sent until it is acknowledged.
#[derive(Drop)]
pub struct Retry {
    outbox: Outbox,
    requests: TakenRequests,
    others: HeardMessages,
}

impl Model for Retry {
    ghost use Rattle.message_retry.specs.Retry.{Retry as Kept};

    ghost Value = { Kept };

    ghost view = { λ r. record { waiting = r.outbox; seen = r.requests; heard = r.others } };
}

impl Retry {
    pub fn new(alloc: Global) -> Retry
        ensures { result ≡ no_retry }
    {
        Retry {
            outbox: Outbox::new(alloc),
            requests: TakenRequests::new(alloc),
            others: HeardMessages::new(alloc),
        }
    }

    /// Whether the message was taken before. It takes no memory.
    #[tactic(auto, unfolding(crate::specs::Retry::is_old))]
    pub fn is_old(&self, message: &Message) -> bool
        ensures { result ≡ is_old message.now self.now }
    {
        if message.is_request() {
            self.requests.has(&message.header)
        } else {
            self.others.has(message)
        }
    }

    /// Whether a request was taken, by its header. It takes no memory.
    pub fn has(&self, header: &Header) -> bool
        ensures { result ≡ is_taken header.now self.now.seen }
    {
        self.requests.has(header)
    }

    /// Takes a message.
    #[tactic(auto, unfolding(crate::specs::Retry::saw))]
    pub fn saw(&mut self, alloc: Global, message: &Message) -> Result<(), AllocError>
        ensures ok { OnOk result (self.new ≡ saw message.now self.old) }
        ensures err { OnErr result (self.new ≡ self.old) }
    {
        if message.is_request() {
            let _is_new = self.requests.take(alloc, &message.header)?;
        } else {
            self.others.take(alloc, message)?;
        }
        Ok(())
    }

    /// Takes a message back that was the last one and new, where the event fails in which it was taken. It takes no memory.
    #[tactic(auto, unfolding(crate::specs::Retry::is_old, crate::specs::Retry::saw, crate::specs::Retry::with_heard, crate::specs::Taken::with_taken))]
    pub fn take_back(&mut self, message: &Message)
        ensures { (before : Kept) → is_old message.now before ≡ false →
            self.old ≡ saw message.now before → self.new ≡ before }
    {
        if message.is_request() {
            self.requests.take_back();
        } else {
            self.others.take_back();
        }
    }

    /// Copies of the messages wait behind the others.
    pub fn store(&mut self, alloc: Global, messages: &[Message]) -> Result<(), AllocError>
        ensures ok { let all = self.old.waiting ++ messages.now in
            OnOk result (self.new ≡ record self.old { waiting = all }) }
        ensures err { OnErr result (self.new ≡ self.old) }
    {
        let count = self.outbox.put_some(alloc, messages);
        if count < messages.len() {
            self.outbox.take_out(count);
            return Err(AllocError);
        }
        Ok(())
    }

    /// Takes the last ones that wait out again, where the event fails in which they were stored. It takes no memory.
    pub fn take_out(&mut self, count: usize)
        ensures { (front back : Sequence MessageValue) → length back ≡ count →
            self.old.waiting ≡ front ++ back → self.new ≡ record self.old { waiting = front } }
    {
        self.outbox.take_out(count);
    }

    /// A message was acknowledged. It says whether one of that identity waited, and takes no memory.
    pub fn acked(&mut self, identity: &Identity) -> bool
        ensures waited { result ≡ is_waiting identity.now self.old.waiting }
        ensures rest { let rest = without identity.now self.old.waiting in
            self.new ≡ record self.old { waiting = rest } }
    {
        self.outbox.acked(identity)
    }

    /// Whether a message of the identity waits. It takes no memory, and doesn't go over all that wait.
    pub fn waits(&self, identity: &Identity) -> bool
        ensures { result ≡ is_waiting identity.now self.now.waiting }
    {
        self.outbox.waits(identity)
    }

    /// The messages that wait, in the order in which they were stored. It takes no memory.
    pub fn waiting(&self) -> Values<'_, u64, Message>
        ensures rest { result ≡ self.now.waiting }
        ensures runs { ShowsInOrder (deref {X = MessageValue}) }
    {
        self.outbox.waiting()
    }
}
