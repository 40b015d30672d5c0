//! Names, each of which is kept once.

ghost use Rattle.std.specs.Prelude.{◌≡◌, [], Some, IfOk};
ghost use Rattle.message_retry.specs.Names.{place_of, Keeps};

use indexmap::IndexSet;
use std::alloc::{AllocError, Global};
use std::marker::Model;

/// Names by their places, in the order in which they came.
#[derive(Drop)]
pub struct Names {
    names: IndexSet<String>,
}

impl Model for Names {
    ghost use Rattle.std.specs.Prelude.{List, ℕ};
    ghost use Rattle.message_retry.specs.Names.{texts};

    ghost Value = { List (List ℕ) };

    ghost view = { λ n. texts n.names.keys };
}

impl Names {
    pub fn new(alloc: Global) -> Names
        ensures { result ≡ [] }
    {
        Names {
            names: IndexSet::new(alloc),
        }
    }

    /// The place of a name. It takes no memory.
    pub fn place(&self, name: &str) -> Option<usize>
        ensures place { result ≡ place_of self.now name.now }
    {
        self.names.get_index_of(name)
    }

    /// The place of a name, which is added where it is wanting.
    pub fn note(&mut self, alloc: Global, name: &str) -> Result<usize, AllocError>
        ensures place { IfOk result (λ place. place_of self.new name.now ≡ Some place) }
        ensures kept { Keeps self.old self.new }
    {
        if let Some(place) = self.place(name) {
            return Ok(place);
        }
        let (place, _) = self.names.insert_full(String::from_str(alloc, name)?)?;
        Ok(place)
    }
}
