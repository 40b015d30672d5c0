//! The labels of which each requester has reserved something.

ghost use Rattle.std.specs.Prelude.{◌≡◌, ◌≤◌, ◌<◌, ◌∷◌, [], ◌++◌, ℕ, List as Sequence, ◌||◌, ◌&&◌, ◌==◌, OnOk, OnErr, IsTrue, None, get_or, slice_set, length};
ghost use Rattle.std.specs.Str.{bytes_eq};
ghost use Rattle.nsi_base.specs.Bytes.{is_name};
ghost use Rattle.stp_topology.specs.Names.{place_of};
ghost use Rattle.nsi_script.specs.Labels.{is_noted};

use nsi_base::AgentNo;
use std::alloc::{AllocError, Global};
use std::marker::Model;
use stp_topology::Names;

/// A table of names for each requester, so that a label is found without a look at all asks.
#[derive(Drop)]
pub struct Labels {
    by_requester: Vec<Names>,
}

impl Model for Labels {
    ghost use Rattle.std.specs.Prelude.{List, ℕ};

    ghost Value = { List (List (List ℕ)) };

    ghost view = { λ l. l.by_requester.items };
}

/// A table for each agent.
fn make_room(tables: &mut Vec<Names>, alloc: Global) -> Result<(), AllocError>
    ensures same { (a : ℕ) → get_or tables.new.items a [] ≡ get_or tables.old.items a [] }
    ensures room { OnOk result (64 ≤ length tables.new.items) }
{
    for n in tables.len()..64 {
        tables.push(Names::new(alloc))?;
    }
    Ok(())
}

/// One label more of a requester.
fn put(
    tables: &mut Vec<Names>,
    alloc: Global,
    agent: AgentNo,
    label: &[u8],
) -> Result<(), AllocError>
    requires room { 64 ≤ length tables.old.items }
    requires is_name { IsTrue (is_name label.now) }
    requires is_new { place_of (get_or tables.old.items agent []) label.now ≡ None }
    ensures { OnOk result (tables.new.items
        ≡ slice_set tables.old.items agent
        (get_or tables.old.items agent [] ++ label.now ∷ [])) }
{
    tables[agent.get() as usize].declare(alloc, label)
}

impl Labels {
    pub fn new(alloc: Global) -> Labels
        ensures { result ≡ [] }
    {
        Labels {
            by_requester: Vec::new(alloc),
        }
    }

    pub fn has(&self, agent: AgentNo, label: &[u8]) -> bool
        ensures { result ≡ is_noted self.now agent label.now }
    {
        match self.by_requester.get(agent.get() as usize) {
            Some(table) => table.place(label).is_some(),
            None => false,
        }
    }

    /// Notes a label, which may be noted already.
    pub fn note(&mut self, alloc: Global, agent: AgentNo, label: &[u8]) -> Result<(), AllocError>
        requires { IsTrue (is_name label.now) }
        ensures { OnOk result ((a : ℕ) (l : Sequence ℕ) → is_noted self.new a l
            ≡ ((a == agent) && bytes_eq l label.now) || is_noted self.old a l) }
    {
        if self.has(agent, label) {
            return Ok(());
        }
        make_room(&mut self.by_requester, alloc)?;
        put(&mut self.by_requester, alloc, agent, label)
    }
}
