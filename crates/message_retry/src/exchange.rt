//! By what a request is known, with its agents as places of names.

ghost use Rattle.std.specs.Prelude.{◌≡◌, Some, IfOk};
ghost use Rattle.std.specs.Hash as fed;
ghost use Rattle.std.specs.Cmp.Rules.{hashing};
ghost use Rattle.std.proofs.Common.{rules};
ghost use Rattle.message_retry.specs.Names.{Keeps};
ghost use Rattle.message_retry.specs.Exchanges.{exchange_of};

use crate::names::Names;
use nsi_base::Name;
use nsi_primitive::{Header, Id};
use std::alloc::{AllocError, Global};
use std::hash::{Hash, Hasher};

/// By which a request is known. It owns nothing, so that a look-up takes no memory.
#[derive(Clone, Copy, Debug, PartialEq, Eq)]
pub struct Exchange {
    requester: usize,
    provider: usize,
    correlation: u128,
}

/// An id tells most requests apart, so the places of their agents aren't hashed.
impl Hash for Exchange {
    ghost hash_input = { λ e. fed.u128 e.correlation };

    ghost respects_eq = { Prim.search (hashing, rules) };

    fn hash<H: Hasher>(&self, state: &mut H) {
        self.correlation.hash(state);
    }
}

impl Exchange {
    /// The exchange of a request whose agents both have a place.
    pub fn known(names: &Names, header: &Header) -> Option<Exchange>
        ensures { result ≡ exchange_of names.now header.now }
    {
        Exchange::between(
            names,
            &header.requester,
            &header.provider,
            header.correlation,
        )
    }

    /// The exchange between two agents that both have a place.
    pub fn between(
        names: &Names,
        requester: &Name,
        provider: &Name,
        correlation: Id,
    ) -> Option<Exchange>
        ensures { result ≡ exchange_of names.now (record {
          correlation = correlation;
          requester = requester.now;
          provider = provider.now;
        }) }
    {
        Some(Exchange {
            requester: names.place(requester.as_str())?,
            provider: names.place(provider.as_str())?,
            correlation: correlation.number(),
        })
    }

    /// The exchange of a request, whose agents get a place where they have none.
    pub fn noted(names: &mut Names, alloc: Global, header: &Header) -> Result<Exchange, AllocError>
        ensures exchange { let h = header.now in
            IfOk result (λ exchange. exchange_of names.new h ≡ Some exchange) }
        ensures kept { Keeps names.old names.new }
    {
        let requester = names.note(alloc, header.requester.as_str())?;
        let provider = names.note(alloc, header.provider.as_str())?;
        let correlation = header.correlation.number();
        Ok(Exchange {
            requester,
            provider,
            correlation,
        })
    }
}
