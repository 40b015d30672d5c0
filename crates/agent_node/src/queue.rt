//! What is still to be pushed to an agent.

ghost use Rattle.std.specs.Prelude.{◌≡◌, ◌==◌, [], ◌∷◌, ◌++◌, length, OnOk};
ghost use Rattle.std.specs.List.{list_any};
ghost use Rattle.nsi_primitive.specs.Printable.{IsPrintableParcel};
ghost use Rattle.agent_node.specs.Passing.{is_message, passes};
ghost use Rattle.agent_node.specs.Linked.{passing};

use agent_link::{Outgoing, PushFault};
use message_retry::is_of;
use nsi_primitive::{Identity, Parcel};
use std::alloc::{AllocError, Global};
use std::collections::VecDeque;
use std::marker::Model;

#[derive(Drop)]
pub struct Queue {
    parcels: VecDeque<Parcel>,
}

impl Model for Queue {
    ghost use Rattle.std.specs.Prelude.{List};
    ghost use Rattle.std.specs.List.{All};
    ghost use Rattle.nsi_primitive.specs.Printable.{IsPrintableParcel};
    ghost use Rattle.nsi_primitive.specs.declared.message.Parcel.{Parcel as AParcel};

    ghost Value = { List AParcel };

    ghost view = { λ q. q.parcels.items };

    ghost invariant = { λ q. All IsPrintableParcel q.parcels.items };
}

impl Queue {
    pub fn new(alloc: Global) -> Self
        ensures { result ≡ [] }
    {
        Queue {
            parcels: VecDeque::new(alloc),
        }
    }

    /// Puts a parcel behind.
    pub fn put(&mut self, parcel: Parcel) -> Result<(), AllocError>
        requires { IsPrintableParcel parcel }
        ensures { OnOk result (self.new ≡ self.old ++ parcel ∷ []) }
    {
        self.parcels.push_back(parcel)?;
        Ok(())
    }

    pub fn is_empty(&self) -> bool
        ensures { result ≡ (length self.now == 0) }
    {
        self.parcels.is_empty()
    }

    pub fn clear(&mut self)
        ensures { self.new ≡ [] }
    {
        self.parcels.clear();
    }

    /// Whether a message of the identity is queued.
    pub fn has(&self, identity: &Identity) -> bool
        ensures { result ≡ list_any (is_message identity.now) self.now }
    {
        self.parcels
            .iter()
            .any(|parcel| is_message(identity, parcel))
    }

    /// Puts its front on the link, as far as that takes it.
    pub fn push(&mut self, alloc: Global, out: &mut Outgoing) -> Result<(), AllocError>
        ensures passes { OnOk result
            (passing self.new out.new ≡ passes self.old out.old.plan out.old.parcels) }
        ensures wire { out.new.wire ≡ out.old.wire }
    {
        while let Some(parcel) = self.parcels.pop_front() {
            match out.push(alloc, parcel) {
                Ok(_) => {}
                Err(PushFault::Full(parcel)) => {
                    self.parcels.push_front_reserved(parcel);
                    return Ok(());
                }
                Err(PushFault::NoMemory(_)) => return Err(AllocError),
            }
        }
        Ok(())
    }
}

fn is_message(i: &Identity, parcel: &Parcel) -> bool
    ensures { result ≡ is_message i.now parcel.now }
{
    match parcel {
        Parcel::Message(message) => is_of(message, i),
        Parcel::Ack(_) => false,
    }
}
