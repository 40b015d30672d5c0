//! Names and their places.

ghost use Rattle.std.specs.Prelude.{◌≡◌, ◌<◌, [], ◌∷◌, ◌++◌, OnOk, OnErr, IfSome, None, Some, IsTrue, length, slice_get};
ghost use Rattle.nsi_base.specs.Bytes.{is_name};
ghost use Rattle.stp_topology.specs.Names.{place_of};

use indexmap::IndexSet;
use nsi_base::Name;
use std::alloc::{AllocError, Global};
use std::marker::Model;

/// Names in the order of their declaration.
#[derive(Drop)]
pub struct Names {
    names: Vec<Name>,
    places: IndexSet<Vec<u8>>,
}

impl Model for Names {
    ghost use Rattle.std.specs.Prelude.{◌≡◌, List, ℕ};
    ghost use Rattle.stp_topology.specs.Names.{texts};

    ghost Value = { List (List ℕ) };

    ghost view = { λ n. n.names.items };

    ghost invariant = { λ n. texts n.places.keys ≡ n.names.items };
}

impl Names {
    pub fn new(alloc: Global) -> Names
        ensures { result ≡ [] }
    {
        Names {
            names: Vec::new(alloc),
            places: IndexSet::new(alloc),
        }
    }

    pub fn len(&self) -> usize
        ensures { result ≡ length self.now }
    {
        self.names.len()
    }

    pub fn get(&self, i: usize) -> &Name
        requires { i < length self.now }
        ensures { slice_get self.now i ≡ Some result.now }
    {
        &self.names[i]
    }

    pub fn place(&self, name: &[u8]) -> Option<usize>
        ensures place { result ≡ place_of self.now name.now }
        ensures within { IfSome result (λ i. i < length self.now) }
    {
        self.places.get_index_of(name)
    }

    /// One name more.
    pub fn declare(&mut self, alloc: Global, name: &[u8]) -> Result<(), AllocError>
        requires is_name { IsTrue (is_name name.now) }
        requires is_new { place_of self.old name.now ≡ None }
        ensures ok { OnOk result (self.new ≡ self.old ++ name.now ∷ []) }
        ensures err { OnErr result (self.new ≡ self.old) }
    {
        let Ok(copy) = Name::of(alloc, name) else {
            return Err(AllocError);
        };
        let key = Vec::from_slice(alloc, name)?;
        self.names.push(copy)?;
        match self.places.insert(key) {
            Ok(_) => Ok(()),
            Err(_) => {
                let _ = self.names.pop();
                Err(AllocError)
            }
        }
    }
}
