//! A list that contracts see as one.

ghost use Rattle.std.specs.Prelude.{◌≡◌, [], ◌∷◌, ◌++◌, take, OnOk, OnErr};
ghost use Rattle.std.specs.Prelude.{List as Sequence};

use std::alloc::{AllocError, Global};
use std::marker::Model;

/// A vector in a record or a message. It is made from a `Vec` and gives it back without taking memory.
#[derive(Debug, Drop)]
pub struct List<T> {
    items: Vec<T>,
}

impl<T> Model for List<T> {
    ghost use Rattle.std.specs.Prelude.{List as Sequence};

    ghost Value = { Sequence T };

    ghost view = { λ l. l.items.items };
}

impl<T> List<T> {
    pub fn new(alloc: Global) -> Self
        ensures { result ≡ [] }
    {
        List {
            items: Vec::new(alloc),
        }
    }

    pub fn from_items(items: Vec<T>) -> Self
        ensures { result ≡ items.items }
    {
        List { items }
    }

    pub fn push(&mut self, item: T) -> Result<(), AllocError>
    where
        T: Drop,
        ensures ok { OnOk result (self.new ≡ self.old ++ item ∷ []) }
        ensures err { OnErr result (self.new ≡ self.old) }
    {
        self.items.push(item)?;
        Ok(())
    }

    /// Takes back what was pushed last. It takes no memory.
    pub fn take_back(&mut self)
    where
        T: Drop,
        ensures { (xs : Sequence T) (x : T) → self.old ≡ xs ++ x ∷ [] → self.new ≡ xs }
    {
        let _ = self.items.pop();
    }

    /// Keeps the first items. It takes no memory.
    pub fn shorten(&mut self, count: usize)
    where
        T: Drop,
        ensures { self.new ≡ take count self.old }
    {
        self.items.truncate(count);
    }

    /// An empty list, which takes its memory from where this one does.
    pub fn new_alike(&self) -> Self
        ensures { result ≡ [] }
    {
        List::new(*self.items.allocator())
    }

    pub fn items(&self) -> &[T]
        ensures { result.now ≡ self.now }
    {
        &self.items
    }

    pub fn into_items(self) -> Vec<T>
        ensures { result.items ≡ self }
    {
        let List { items } = self;
        items
    }
}
