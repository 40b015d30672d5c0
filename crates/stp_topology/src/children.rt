//! The `child` lines, and the children of each agent.

ghost use Rattle.std.specs.Prelude.{◌≡◌, ◌≤◌, ◌<◌, ℕ, [], ◌∷◌, ◌++◌, OnOk, OnErr, get_or, slice_set, length};
ghost use Rattle.stp_topology.specs.Children.{children_in};

use nsi_base::{AgentNo, List};
use std::alloc::{AllocError, Global};
use std::marker::Model;

/// The pairs of an aggregator and its child, in the order of their lines.
#[derive(Drop)]
pub struct ChildLines {
    pairs: Vec<(AgentNo, AgentNo)>,
    by_parent: Vec<List<AgentNo>>,
}

impl Model for ChildLines {
    ghost use Rattle.std.specs.Prelude.{◌≡◌, List as Sequence, ℕ, [], get_or};
    ghost use Rattle.stp_topology.specs.Children.{children_in};

    ghost Value = { Sequence (ℕ × ℕ) };

    ghost view = { λ c. c.pairs.items };

    ghost invariant = { λ c.
        (a : ℕ) → get_or c.by_parent.items a [] ≡ children_in c.pairs.items a };
}

/// A list for each agent.
fn make_room(by_parent: &mut Vec<List<AgentNo>>, alloc: Global) -> Result<(), AllocError>
    ensures same { (a : ℕ) → get_or by_parent.new.items a [] ≡ get_or by_parent.old.items a [] }
    ensures room { OnOk result (64 ≤ length by_parent.new.items) }
{
    for n in by_parent.len()..64 {
        by_parent.push(List::new(alloc))?;
    }
    Ok(())
}

/// One child more of an agent.
fn put(by_parent: &mut Vec<List<AgentNo>>, i: AgentNo, j: AgentNo) -> Result<(), AllocError>
    requires { 64 ≤ length by_parent.old.items }
    ensures ok { OnOk result (by_parent.new.items
        ≡ slice_set by_parent.old.items i (get_or by_parent.old.items i [] ++ j ∷ [])) }
    ensures err { OnErr result (by_parent.new.items ≡ by_parent.old.items) }
{
    by_parent[i.get() as usize].push(j)
}

impl ChildLines {
    pub fn new(alloc: Global) -> Self
        ensures { result ≡ [] }
    {
        ChildLines {
            pairs: Vec::new(alloc),
            by_parent: Vec::new(alloc),
        }
    }

    /// One line more.
    pub fn push(&mut self, alloc: Global, i: AgentNo, j: AgentNo) -> Result<(), AllocError>
        ensures ok { OnOk result (self.new ≡ self.old ++ (i, j) ∷ []) }
        ensures err { OnErr result (self.new ≡ self.old) }
    {
        make_room(&mut self.by_parent, alloc)?;
        self.pairs.push((i, j))?;
        match put(&mut self.by_parent, i, j) {
            Ok(()) => Ok(()),
            Err(e) => {
                let _ = self.pairs.pop();
                Err(e)
            }
        }
    }

    pub fn items(&self) -> &[(AgentNo, AgentNo)]
        ensures { result.now ≡ self.now }
    {
        &self.pairs
    }

    /// The children of an agent, in the order of their lines.
    pub fn of(&self, a: AgentNo) -> &[AgentNo]
        ensures { result.now ≡ children_in self.now a }
    {
        match self.by_parent.get(a.get() as usize) {
            Some(children) => children.items(),
            None => &[],
        }
    }
}
