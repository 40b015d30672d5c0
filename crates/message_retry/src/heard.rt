//! The messages that were taken and ask for nothing.

ghost use Rattle.std.specs.Prelude.{◌≡◌, [], ◌∷◌, ◌++◌, OnOk, OnErr};
ghost use Rattle.std.specs.Prelude.{List as Sequence};
ghost use Rattle.nsi_primitive.specs.declared.message.Identity.{Identity as IdentityValue};
ghost use Rattle.nsi_primitive.specs.Messages.{identity};
ghost use Rattle.message_retry.specs.Retry.{is_heard, with_heard};

use crate::mark::Mark;
use crate::names::Names;
use indexmap::IndexSet;
use nsi_primitive::Message;
use std::alloc::{AllocError, Global};
use std::marker::Model;

/// The answers and notifications that an agent has taken, in order.
#[derive(Drop)]
pub struct HeardMessages {
    names: Names,
    marks: IndexSet<Mark>,
}

impl Model for HeardMessages {
    ghost use Rattle.std.specs.Prelude.{List, All};
    ghost use Rattle.nsi_primitive.specs.declared.message.Identity.{Identity};
    ghost use Rattle.message_retry.specs.Marks.{identities, IsMarked};

    ghost Value = { List Identity };

    ghost view = { λ h. identities h.names h.marks.keys };

    ghost invariant = { λ h. All (IsMarked h.names) h.marks.keys };
}

impl HeardMessages {
    pub fn new(alloc: Global) -> HeardMessages
        ensures { result ≡ [] }
    {
        HeardMessages {
            names: Names::new(alloc),
            marks: IndexSet::new(alloc),
        }
    }

    /// Takes a message, where it is wanting.
    pub fn take(&mut self, alloc: Global, message: &Message) -> Result<(), AllocError>
        ensures taken { OnOk result (self.new ≡ with_heard (identity message.now) self.old) }
        ensures err { OnErr result (self.new ≡ self.old) }
    {
        let mark = Mark::noted(&mut self.names, alloc, message)?;
        let _is_new = self.marks.insert(mark)?;
        Ok(())
    }

    /// Whether a message was taken. It takes no memory.
    pub fn has(&self, message: &Message) -> bool
        ensures { result ≡ is_heard (identity message.now) self.now }
    {
        match Mark::known(&self.names, message) {
            Some(mark) => self.marks.contains(&mark),
            None => false,
        }
    }

    /// Takes the last one back. It takes no memory.
    pub fn take_back(&mut self)
        ensures { (heard : Sequence IdentityValue) (i : IdentityValue) →
            self.old ≡ heard ++ i ∷ [] → self.new ≡ heard }
    {
        let _last = self.marks.pop();
    }
}
