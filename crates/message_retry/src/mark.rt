//! By what a message is known, with its agents as places of names.

ghost use Rattle.std.specs.Prelude.{◌≡◌, Some, IfOk};
ghost use Rattle.nsi_primitive.specs.Kinds.{kind_number};
ghost use Rattle.nsi_primitive.specs.Messages.{identity};
ghost use Rattle.message_retry.specs.Names.{Keeps};
ghost use Rattle.message_retry.specs.Marks.{mark_of};

use crate::exchange::Exchange;
use crate::names::Names;
use nsi_primitive::{Identity, Kind, Message};
use std::alloc::{AllocError, Global};

/// By which a message is known. It owns nothing, so that a look-up takes no memory.
#[derive(Clone, Copy, Debug, PartialEq, Eq, Hash)]
pub struct Mark {
    exchange: Exchange,
    kind: u8,
}

impl Mark {
    /// The mark of a message whose agents both have a place.
    pub fn known(names: &Names, message: &Message) -> Option<Mark>
        ensures { result ≡ mark_of names.now (identity message.now) }
    {
        Some(Mark {
            exchange: Exchange::known(names, &message.header)?,
            kind: number_of(message.kind()),
        })
    }

    /// The mark of an identity whose agents both have a place.
    pub fn named(names: &Names, i: &Identity) -> Option<Mark>
        ensures { result ≡ mark_of names.now i.now }
    {
        Some(Mark {
            exchange: Exchange::between(names, &i.requester, &i.provider, i.correlation)?,
            kind: number_of(i.kind),
        })
    }

    /// The mark of a message, whose agents get a place where they have none.
    pub fn noted(names: &mut Names, alloc: Global, message: &Message) -> Result<Mark, AllocError>
        ensures mark { let i = identity message.now in
            IfOk result (λ mark. mark_of names.new i ≡ Some mark) }
        ensures kept { Keeps names.old names.new }
    {
        let exchange = Exchange::noted(names, alloc, &message.header)?;
        let kind = number_of(message.kind());
        Ok(Mark { exchange, kind })
    }
}

/// The number of a kind.
#[tactic(auto, unfolding(nsi_primitive::specs::Kinds::kind_number))]
pub fn number_of(kind: Kind) -> u8
    ensures { result ≡ kind_number kind }
{
    kind as u8
}
