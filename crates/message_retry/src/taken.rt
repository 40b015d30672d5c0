//! The requests that were taken.

ghost use Rattle.std.specs.Prelude.{◌≡◌, [], ◌∷◌, ◌++◌, IfOk, OnOk, OnErr, not};
ghost use Rattle.std.specs.Prelude.{List as Sequence};
ghost use Rattle.nsi_primitive.specs.declared.message.Header.{Header};
ghost use Rattle.message_retry.specs.Taken.{is_taken, with_taken};

use crate::exchange::Exchange;
use crate::names::Names;
use indexmap::IndexSet;
use nsi_primitive::Header;
use std::alloc::{AllocError, Global};
use std::marker::Model;

/// The requests that an agent has taken, in order.
#[derive(Drop)]
pub struct TakenRequests {
    names: Names,
    exchanges: IndexSet<Exchange>,
}

impl Model for TakenRequests {
    ghost use Rattle.std.specs.Prelude.{List, All};
    ghost use Rattle.nsi_primitive.specs.declared.message.Header.{Header};
    ghost use Rattle.message_retry.specs.Exchanges.{headers, IsPlaced};

    ghost Value = { List Header };

    ghost view = { λ t. headers t.names t.exchanges.keys };

    ghost invariant = { λ t. All (IsPlaced t.names) t.exchanges.keys };
}

impl TakenRequests {
    pub fn new(alloc: Global) -> TakenRequests
        ensures { result ≡ [] }
    {
        TakenRequests {
            names: Names::new(alloc),
            exchanges: IndexSet::new(alloc),
        }
    }

    /// Takes a request, and says whether it is new.
    pub fn take(&mut self, alloc: Global, header: &Header) -> Result<bool, AllocError>
        ensures new { IfOk result (λ is_new. is_new ≡ not (is_taken header.now self.old)) }
        ensures taken { OnOk result (self.new ≡ with_taken header.now self.old) }
        ensures err { OnErr result (self.new ≡ self.old) }
    {
        let exchange = Exchange::noted(&mut self.names, alloc, header)?;
        let is_new = self.exchanges.insert(exchange)?;
        Ok(is_new)
    }

    /// Whether a request was taken. It takes no memory.
    pub fn has(&self, header: &Header) -> bool
        ensures { result ≡ is_taken header.now self.now }
    {
        match Exchange::known(&self.names, header) {
            Some(exchange) => self.exchanges.contains(&exchange),
            None => false,
        }
    }

    /// Takes the last one back. It takes no memory.
    pub fn take_back(&mut self)
        ensures { (headers : Sequence Header) (h : Header) →
            self.old ≡ headers ++ h ∷ [] → self.new ≡ headers }
    {
        let _last = self.exchanges.pop();
    }
}
