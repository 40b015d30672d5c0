//! Messages, of which any is found without looking at the others.

ghost use Rattle.std.specs.Prelude.{◌≡◌, ◌++◌, ◌↔◌, [], length, option_map, true, IfNone, IfOk, IfSome, OnOk};
ghost use Rattle.std.specs.List.{All, Contains};
ghost use Rattle.nsi_primitive.specs.Printable.{IsPrintable};
ghost use Rattle.json_primitives.specs.Spelling.{spelling};
ghost use Rattle.followed_agent.specs.Messages.{AreFound, IsFoundIn, IsIndexed, IsNowhere, IsReadAgain, IsReadAgainAt, StandsAt, message_at};

use id_index::IdIndex;
use json_primitives::print_message;
use message_retry::is_of;
use nsi_primitive::{Identity, Message};
use std::alloc::{AllocError, Global};

/// Messages in order, and at which places those of a correlationId stand.
#[derive(Drop)]
pub struct Messages {
    pub messages: Vec<Message>,
    pub places: IdIndex,
}

impl Messages {
    pub fn new(alloc: Global) -> Messages
        ensures none { result.messages.items ≡ [] }
        ensures indexed { IsIndexed result }
    {
        Messages {
            messages: Vec::new(alloc),
            places: IdIndex::new(alloc),
        }
    }

    /// How many there are.
    pub fn len(&self) -> usize
        ensures { result ≡ length self.now.messages.items }
    {
        self.messages.len()
    }

    /// Adds messages behind the others, in order, and leaves none of them where they were.
    pub fn add_all(&mut self, more: &mut Vec<Message>) -> Result<(), AllocError>
        requires indexed { IsIndexed self.old }
        requires printable { All IsPrintable more.old.items }
        ensures indexed { OnOk result (IsIndexed self.new) }
        ensures added { OnOk result
            (self.new.messages.items ≡ self.old.messages.items ++ more.old.items) }
        ensures none { OnOk result (more.new.items ≡ []) }
    {
        let from = self.messages.len();
        self.messages.append(more)?;
        index_all(&mut self.places, from, &self.messages)?;
        Ok(())
    }

    /// Whether it is one of them.
    pub fn has(&self, alloc: Global, message: &Message) -> Result<bool, AllocError>
        requires indexed { IsIndexed self.now }
        requires printable { IsPrintable message.now }
        ensures { IfOk result
            (λ is. (is ≡ true) ↔ Contains self.now.messages.items message.now) }
    {
        let identity = message.identity()?;
        let text = print_message(alloc, message)?;
        let place = self.place_of(alloc, &identity, &text)?;
        Ok(place.is_some())
    }

    /// A copy of the one of that identity which is spelled so.
    pub fn find(
        &self,
        alloc: Global,
        identity: &Identity,
        text: &[u8],
    ) -> Result<Option<Message>, AllocError>
        requires indexed { IsIndexed self.now }
        ensures { IfOk result (λ found. IfSome found
            (IsFoundIn self.now.messages.items text.now)) }
    {
        match self.place_of(alloc, identity, text)? {
            Some(place) => {
                let message = self.messages[place].copy()?;
                Ok(Some(message))
            }
            None => Ok(None),
        }
    }

    /// The place of the one of that identity which is spelled so.
    fn place_of(
        &self,
        alloc: Global,
        identity: &Identity,
        text: &[u8],
    ) -> Result<Option<usize>, AllocError>
        requires indexed { IsIndexed self.now }
        ensures found { IfOk result (λ found. IfSome found
            (StandsAt self.now.messages.items identity.now text.now)) }
        ensures again { IfOk result (λ found. IfSome found
            (IsReadAgainAt self.now.messages.items)) }
        ensures nowhere { IfOk result
            (IsNowhere self.now.messages.items identity.now text.now) }
    {
        let mut places = Vec::new(alloc);
        self.places.note_places(identity.correlation, &mut places)?;
        let place = self.place_among(alloc, &places, identity, text)?;
        Ok(place)
    }

    /// One of these places at which one of that identity stands which is spelled so.
    fn place_among(
        &self,
        alloc: Global,
        places: &[usize],
        identity: &Identity,
        text: &[u8],
    ) -> Result<Option<usize>, AllocError>
        requires indexed { IsIndexed self.now }
        ensures found { IfOk result (λ found. IfSome found
            (StandsAt self.now.messages.items identity.now text.now)) }
        ensures again { IfOk result (λ found. IfSome found
            (IsReadAgainAt self.now.messages.items)) }
        ensures none { IfOk result (λ found. IfNone found
            (All (λ p. StandsAt self.now.messages.items identity.now text.now p → ⊥) places.now)) }
    {
        for place in places {
            if self.is_at(alloc, *place, identity, text)? {
                return Ok(Some(*place));
            }
        }
        Ok(None)
    }

    /// Whether one of that identity, which is spelled so, stands at that place.
    fn is_at(
        &self,
        alloc: Global,
        place: usize,
        identity: &Identity,
        text: &[u8],
    ) -> Result<bool, AllocError>
        requires indexed { IsIndexed self.now }
        ensures stands { IfOk result (λ is. (is ≡ true) ↔
            StandsAt self.now.messages.items identity.now text.now place) }
        ensures again { IfOk result (λ is. is ≡ true →
            IsReadAgainAt self.now.messages.items place) }
    {
        match message_at(&self.messages, place, identity) {
            Some(message) => {
                let is_spelled = is_spelled(alloc, message, text)?;
                Ok(is_spelled)
            }
            None => Ok(false),
        }
    }
}

/// The message at a place, where it is of that identity.
fn message_at<'a>(messages: &'a [Message], place: usize, identity: &Identity) -> Option<&'a Message>
    requires printable { All IsPrintable messages.now }
    ensures value { option_map (λ m. m.now) result ≡ message_at messages.now place identity.now }
    ensures printable { IfSome result (λ m. IsPrintable m.now) }
{
    match messages.get(place) {
        Some(message) if is_of(message, identity) => Some(message),
        _ => None,
    }
}

/// Notes where the messages from a place on stand.
fn index_all(places: &mut IdIndex, from: usize, messages: &[Message]) -> Result<(), AllocError>
    requires before { AreFound places.old from messages.now }
    ensures { OnOk result (AreFound places.new (length messages.now) messages.now) }
{
    for place in from..messages.len() {
        places.add(messages[place].header.correlation, place)?;
    }
    Ok(())
}

/// Whether the text spells the message.
fn is_spelled(alloc: Global, message: &Message, text: &[u8]) -> Result<bool, AllocError>
    requires printable { IsPrintable message.now }
    ensures spelled { IfOk result (λ is. (is ≡ true) ↔ (spelling message.now ≡ text.now)) }
    ensures again { IfOk result (λ _. IsReadAgain message.now) }
{
    let print = print_message(alloc, message)?;
    Ok(print.as_slice() == text)
}
