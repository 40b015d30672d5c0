//! The messages that wait for their acknowledgement.

ghost use Rattle.std.specs.Prelude.{◌≡◌, ◌<◌, ◌≤◌, ℕ, [], ◌∷◌, ◌++◌, Some, None, All, length, take, IfOk, IfSome, OnOk, OnErr};
ghost use Rattle.std.specs.Prelude.{List as Sequence};
ghost use Rattle.std.specs.BTreeMap.{keys, values, is_at, IsOrdered};
ghost use Rattle.std.specs.Map.{lookup, remove_entry};
ghost use Rattle.std.specs.Ordering.{nat_cmp};
ghost use Rattle.std.specs.Map.Iter.{ShowsInOrder, deref};
ghost use Rattle.std.specs.Option.{option_map};
ghost use Rattle.nsi_primitive.specs.Messages.{identity};
ghost use Rattle.nsi_primitive.specs.declared.message.Message.{Message as MessageValue};
ghost use Rattle.message_retry.specs.Retry.{is_same_identity, is_waiting, without};
ghost use Rattle.message_retry.specs.Marks.{mark_of};
ghost use Rattle.message_retry.specs.Numbered.{first_number};
ghost use Rattle.message_retry.specs.Spans.{is_same_mark, IsCovered, LiesWithin};
ghost use Rattle.message_retry.specs.declared.mark.Mark.{Mark as MarkValue};
ghost use Rattle.message_retry.specs.declared.span.Span.{Span as SpanValue};

use crate::mark::{Mark, number_of};
use crate::names::Names;
use crate::span::{Span, forget, widen};
use indexmap::IndexMap;
use nsi_primitive::{Identity, Message};
use std::alloc::{AllocError, Global};
use std::collections::BTreeMap;
use std::collections::btree_map::{Range, Values};
use std::marker::Model;

/// The messages that an agent sent and that weren't acknowledged, in the order in which they were put. Each has a number above those
/// before it, so that one is taken out without moving the others, and for each mark it is known between which numbers its messages lie.
#[derive(Drop)]
pub struct Outbox {
    names: Names,
    messages: BTreeMap<u64, Message>,
    spans: IndexMap<Mark, Span>,
}

impl Model for Outbox {
    ghost use Rattle.std.specs.Prelude.{List, All};
    ghost use Rattle.std.specs.BTreeMap.{values};
    ghost use Rattle.nsi_primitive.specs.declared.message.Message.{Message};
    ghost use Rattle.message_retry.specs.Spans.{IsCovered};

    ghost Value = { List Message };

    ghost view = { λ o. values o.messages };

    ghost invariant = { λ o. All (IsCovered o.names o.spans.entries) o.messages.entries };
}

impl Outbox {
    pub fn new(alloc: Global) -> Outbox
        ensures { result ≡ [] }
    {
        Outbox {
            names: Names::new(alloc),
            messages: BTreeMap::new(alloc),
            spans: IndexMap::new(alloc),
        }
    }

    /// The waiting messages in order.
    pub fn waiting(&self) -> Values<'_, u64, Message>
        ensures rest { result ≡ self.now }
        ensures runs { ShowsInOrder (deref {X = MessageValue}) }
    {
        self.messages.values()
    }

    /// Puts a copy behind the others. Its span is widened first: where memory is wanting afterwards, a span that is too wide does no harm.
    pub fn put(&mut self, alloc: Global, message: &Message) -> Result<(), AllocError>
        ensures ok { OnOk result (self.new ≡ self.old ++ message.now ∷ []) }
        ensures err { OnErr result (self.new ≡ self.old) }
    {
        let number = number_behind(&self.messages)?;
        let mark = Mark::noted(&mut self.names, alloc, message)?;
        widen(&mut self.spans, mark, number)?;
        push(&mut self.messages, number, message)?;
        Ok(())
    }

    /// Puts copies behind the others, and says of how many there was room.
    pub fn put_some(&mut self, alloc: Global, messages: &[Message]) -> usize
        ensures some { self.new ≡ self.old ++ take result messages.now }
        ensures bound { result ≤ length messages.now }
    {
        let mut count = 0;
        for message in messages {
            let Ok(()) = self.put(alloc, message) else {
                break
            };
            count += 1;
        }
        count
    }

    /// Takes the last ones out again. It takes no memory.
    pub fn take_out(&mut self, count: usize)
        ensures { (front back : Sequence MessageValue) → length back ≡ count →
            self.old ≡ front ++ back → self.new ≡ front }
    {
        pop_some(&mut self.messages, count);
    }

    /// Whether one of an identity waits. It takes no memory, and looks at those that lie between the first and the last of its mark.
    pub fn waits(&self, identity: &Identity) -> bool
        ensures { result ≡ is_waiting identity.now self.now }
    {
        find(&self.names, &self.spans, &self.messages, identity).is_some()
    }

    /// Takes the first one of an identity out, and says whether there was one. It takes no memory.
    pub fn acked(&mut self, identity: &Identity) -> bool
        ensures waited { result ≡ is_waiting identity.now self.old }
        ensures rest { self.new ≡ without identity.now self.old }
    {
        match find(&self.names, &self.spans, &self.messages, identity) {
            Some((mark, number)) => {
                discard(&mut self.messages, number);
                forget(&mut self.spans, mark, number);
                true
            }
            None => false,
        }
    }
}

/// A number above those of all messages.
fn number_behind(messages: &BTreeMap<u64, Message>) -> Result<u64, AllocError>
    ensures { IfOk result (λ number. All (λ n. n < number) (keys messages.now)) }
{
    let Some((last, _)) = messages.last_key_value() else {
        return Ok(0)
    };
    match last.checked_add(1) {
        Some(number) => Ok(number),
        None => Err(AllocError),
    }
}

/// Puts a copy of a message behind the others, under a number above theirs.
fn push(
    messages: &mut BTreeMap<u64, Message>,
    number: u64,
    message: &Message,
) -> Result<(), AllocError>
    requires { All (λ n. n < number) (keys messages.old) }
    ensures ok { let added = (number, message.now) ∷ [] in
        OnOk result (messages.new.entries ≡ messages.old.entries ++ added) }
    ensures err { OnErr result (messages.new.entries ≡ messages.old.entries) }
{
    let copy = message.copy()?;
    messages.insert(number, copy)?;
    Ok(())
}

/// The mark and the number of the first message of an identity.
fn find(
    names: &Names,
    spans: &IndexMap<Mark, Span>,
    messages: &BTreeMap<u64, Message>,
    i: &Identity,
) -> Option<(Mark, u64)>
    requires { All (IsCovered names.now spans.now.entries) messages.now.entries }
    ensures number { option_map (λ p. p.1) result ≡ first_number i.now messages.now.entries }
    ensures mark { IfSome result (λ p. mark_of names.now i.now ≡ Some p.0) }
{
    match Mark::named(names, i) {
        Some(mark) => Some((mark, first_of(spans, messages, mark, i)?)),
        None => None,
    }
}

/// The number of the first message of an identity, whose mark is known.
fn first_of(
    spans: &IndexMap<Mark, Span>,
    messages: &BTreeMap<u64, Message>,
    mark: Mark,
    i: &Identity,
) -> Option<u64>
    requires within { (span : SpanValue) →
        lookup (is_same_mark mark) spans.now.entries ≡ Some span →
        All (LiesWithin i.now span) messages.now.entries }
    requires none { lookup (is_same_mark mark) spans.now.entries ≡ None →
        first_number i.now messages.now.entries ≡ None }
    ensures { result ≡ first_number i.now messages.now.entries }
{
    match spans.get(&mark) {
        Some(span) => first_within(messages, *span, i),
        None => None,
    }
}

/// The number of the first message of an identity, all of which lie within a span.
fn first_within(messages: &BTreeMap<u64, Message>, span: Span, i: &Identity) -> Option<u64>
    requires { All (LiesWithin i.now span) messages.now.entries }
    ensures { result ≡ first_number i.now messages.now.entries }
{
    if span.last < span.first {
        return None;
    }
    first_among(messages.range(span.first..=span.last), i)
}

#[tactic(auto, unfolding(crate::specs::Numbered::first_number))]
fn first_among(messages: Range<'_, u64, Message>, i: &Identity) -> Option<u64>
    ensures { result ≡ first_number i.now messages.entry }
{
    for (number, message) in messages {
        if is_of(message, i) {
            return Some(*number);
        }
    }
    None
}

/// Whether it is a message of the identity.
pub fn is_of(message: &Message, i: &Identity) -> bool
    ensures { result ≡ is_same_identity i.now (identity message.now) }
{
    i.requester.is(&message.header.requester)
        && i.provider.is(&message.header.provider)
        && i.correlation.number() == message.header.correlation.number()
        && number_of(i.kind) == number_of(message.kind())
}

/// Takes the message of a number out.
fn discard(messages: &mut BTreeMap<u64, Message>, number: u64)
    ensures ordered { IsOrdered nat_cmp messages.old }
    ensures rest { messages.new.entries
        ≡ remove_entry (is_at (nat_cmp number)) messages.old.entries }
{
    let _count = messages.len();
    messages.remove(&number);
}

/// Takes the last ones out.
fn pop_some(messages: &mut BTreeMap<u64, Message>, count: usize)
    ensures kept { (names : Sequence (Sequence ℕ)) (spans : Sequence (MarkValue × SpanValue)) →
        All (IsCovered names spans) messages.old.entries →
        All (IsCovered names spans) messages.new.entries }
    ensures front { (front back : Sequence MessageValue) → length back ≡ count →
        values messages.old ≡ front ++ back → values messages.new ≡ front }
{
    for _turn in 0..count {
        pop(messages);
    }
}

/// Takes the last one out.
fn pop(messages: &mut BTreeMap<u64, Message>)
    ensures kept { (names : Sequence (Sequence ℕ)) (spans : Sequence (MarkValue × SpanValue)) →
        All (IsCovered names spans) messages.old.entries →
        All (IsCovered names spans) messages.new.entries }
    ensures front { (front : Sequence MessageValue) (m : MessageValue) →
        values messages.old ≡ front ++ m ∷ [] → values messages.new ≡ front }
{
    let _last = messages.pop_last();
}
