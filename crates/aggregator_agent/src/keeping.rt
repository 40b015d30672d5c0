//! How what is done to connections is taken back.

ghost use Rattle.std.specs.Prelude.{◌≡◌, ◌<◌, length, None, slice_set, Contains, IfOk};
ghost use Rattle.std.specs.Prelude.{List as Sequence};
ghost use Rattle.connection_record.specs.Saved.{saved_of};
ghost use Rattle.aggregator_agent.specs.declared.keeping.Kept.{Kept as KeptValue};
ghost use Rattle.aggregator_agent.specs.Bonds.{Bond as BondValue};
ghost use Rattle.aggregator_agent.specs.Bonds.{bond, bonds, bond_at};
ghost use Rattle.aggregator_agent.specs.Undo.{Keeps, IsFormer, CanUndo};

use crate::connection::Connection;
use child_connection::ChildConnection;
use connection_record::Savepoint;
use std::alloc::{AllocError, Global};

/// What the connection at a place was: its own record, and its views where they may change.
#[derive(Drop)]
pub struct Kept {
    pub place: usize,
    pub own: Savepoint,
    pub children: Option<Vec<ChildConnection>>,
}

impl Connection {
    /// What it is, so that it can go back. Its views are copied, since what a view hears can't be taken back by parts.
    #[tactic(auto, unfolding(crate::specs::Undo::views_back))]
    pub fn keep(&self, alloc: Global, place: usize) -> Result<Kept, AllocError>
        ensures keeps { IfOk result (λ kept. Keeps kept (bond self.now)) }
        ensures place { IfOk result (λ kept. kept.place ≡ place) }
    {
        let copies = copies_of(alloc, &self.children)?;
        Ok(Kept {
            place,
            own: self.own.save(),
            children: Some(copies),
        })
    }

    /// The same, where its views stay.
    pub fn keep_own(&self, place: usize) -> Kept
        ensures place { result.place ≡ place }
        ensures own { result.own ≡ saved_of self.now.own }
        ensures children { result.children ≡ None }
    {
        Kept {
            place,
            own: self.own.save(),
            children: None,
        }
    }

    /// Goes back to what it was. It takes no memory.
    pub fn go_back(&mut self, kept: Kept)
        ensures { (was : BondValue) → IsFormer kept was (bond self.old) → bond self.new ≡ was }
    {
        let Kept { own, children, .. } = kept;
        self.own.restore(&own);
        if let Some(children) = children {
            self.children = children;
        }
    }
}

fn copies_of(
    alloc: Global,
    children: &[ChildConnection],
) -> Result<Vec<ChildConnection>, AllocError>
    ensures { IfOk result (λ copies. copies.items ≡ children.now) }
{
    let mut copies = Vec::new(alloc);
    for child in children {
        copies.push(child.copy()?)?;
    }
    Ok(copies)
}

/// Makes the connections that are kept what they were. It takes no memory.
pub fn go_back(connections: &mut Vec<Connection>, kept: Vec<Kept>)
    requires { (k : KeptValue) → Contains kept.items k → k.place < length connections.old.items }
    ensures { (was : Sequence BondValue) →
        CanUndo was (bonds connections.old.items) kept.items →
        bonds connections.new.items ≡ was }
{
    let mut kept = kept;
    while let Some(one) = kept.pop() {
        go_back_at(connections, one);
    }
}

fn go_back_at(connections: &mut Vec<Connection>, kept: Kept)
    requires { kept.place < length connections.old.items }
    ensures long { length connections.new.items ≡ length connections.old.items }
    ensures back { (was : BondValue) →
        IsFormer kept was (bond_at kept.place (bonds connections.old.items)) →
        bonds connections.new.items ≡ slice_set (bonds connections.old.items) kept.place was }
{
    connections[kept.place].go_back(kept);
}
