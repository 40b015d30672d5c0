//! The labels of views, by their places.

ghost use Rattle.std.specs.Prelude.{◌≡◌, ◌++◌, ◌∷◌, [], ℕ, None, position, OnOk, OnErr};
ghost use Rattle.std.specs.Prelude.{List as Sequence};
ghost use Rattle.std.specs.Str.{bytes_eq};

use indexmap::IndexSet;
use nsi_base::Name;
use std::alloc::{AllocError, Global};
use std::marker::Model;

/// Labels in the order in which they came, each of which is found without going over the others.
#[derive(Drop)]
pub struct Labels {
    texts: IndexSet<String>,
}

impl Model for Labels {
    ghost use Rattle.std.specs.Prelude.{List, ℕ};
    ghost use Rattle.requester_agent.specs.Labels.{texts_of};

    ghost Value = { List (List ℕ) };

    ghost view = { λ l. texts_of l.texts.keys };
}

impl Labels {
    pub fn new(alloc: Global) -> Labels
        ensures { result ≡ [] }
    {
        Labels {
            texts: IndexSet::new(alloc),
        }
    }

    /// The place of a label. It takes no memory.
    pub fn place(&self, label: &Name) -> Option<usize>
        ensures { result ≡ position (bytes_eq label.now) self.now }
    {
        self.texts.get_index_of(label.as_str())
    }

    /// One label more.
    pub fn push(&mut self, alloc: Global, label: &Name) -> Result<(), AllocError>
        requires { position (bytes_eq label.now) self.old ≡ None }
        ensures ok { OnOk result (self.new ≡ self.old ++ label.now ∷ []) }
        ensures err { OnErr result (self.new ≡ self.old) }
    {
        let text = String::from_str(alloc, label.as_str())?;
        self.texts.insert(text)?;
        Ok(())
    }

    /// Takes the last one out again. It takes no memory.
    pub fn pop(&mut self)
        ensures { (front : Sequence (Sequence ℕ)) (last : Sequence ℕ) →
            self.old ≡ front ++ last ∷ [] → self.new ≡ front }
    {
        let _last = self.texts.pop();
    }
}
