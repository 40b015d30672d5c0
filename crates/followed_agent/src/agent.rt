//! An agent of a topology, followed from entry to entry.

ghost use Rattle.std.specs.Prelude.{◌≡◌, ◌≤◌, ◌<◌, ◌++◌, ◌∷◌, ◌↔◌, [], length, take, true, IfOk, IfSome, OnOk};
ghost use Rattle.std.specs.List.{Contains};
ghost use Rattle.nsi_primitive.specs.Printable.{IsPrintable, IsPrintableEntry};
ghost use Rattle.nsi_agent.specs.Steps.{after};
ghost use Rattle.nsi_agent.specs.Told.{told};
ghost use Rattle.followed_agent.specs.Kept.{AtSeen, HasTaken, IsKept, said_by, seen};
ghost use Rattle.followed_agent.specs.Messages.{IsFoundIn};

use crate::folding::{fold, leave_out, put, take_one};
use crate::messages::Messages;
use crate::receipts::{note_all, takes_at_one};
use id_index::IdIndex;
use nsi_agent::Agent;
use nsi_base::{AgentNo, Second};
use nsi_primitive::{AskAnswer, Entry, Identity, Message};
use std::alloc::{AllocError, Global};
use stp_topology::Topology;

/// An agent that takes entries, and says what they cause once they are synced. After want of memory it is of no more use.
#[derive(Drop)]
pub struct Followed<'t> {
    pub agent: Agent<'t>,
    pub journal: Vec<Entry>,
    pub synced: usize,
    pub said: Messages,
    pub unsaid: Vec<Message>,
    pub got: IdIndex,
}

impl<'t> Followed<'t> {
    /// The agent of that number, which has taken nothing yet.
    pub fn new(
        alloc: Global,
        topology: &'t Topology,
        number: AgentNo,
    ) -> Result<Followed<'t>, AllocError>
        requires within { number < length topology.now.agents }
        ensures kept { IfOk result IsKept }
        ensures seen { IfOk result (λ x. seen x
            ≡ record { network = topology.now; number = number; journal = []; synced = 0 }) }
    {
        let agent = Agent::new(alloc, topology, number)?;
        Ok(Followed {
            agent,
            journal: Vec::new(alloc),
            synced: 0,
            said: Messages::new(alloc),
            unsaid: Vec::new(alloc),
            got: IdIndex::new(alloc),
        })
    }

    /// The second of its clock.
    pub fn now(&self) -> Second
        requires kept { IsKept self.now }
        ensures { AtSeen (seen self.now)
            (λ h. result ≡ (told h self.now.journal.items).state.base.now) }
    {
        self.agent.now()
    }

    /// Takes an entry, which changes nothing but the journal where the agent doesn't take it.
    pub fn enter(
        &mut self,
        alloc: Global,
        topology: &Topology,
        entry: Entry,
    ) -> Result<Option<AskAnswer>, AllocError>
        requires kept { IsKept self.old }
        requires network { topology.now ≡ self.old.agent.network }
        requires printable { IsPrintableEntry entry }
        ensures kept { OnOk result (IsKept self.new) }
        ensures seen { let journal = self.old.journal.items ++ entry ∷ [] in
            OnOk result (seen self.new ≡ record (seen self.old) { journal = journal }) }
        ensures answer { AtSeen (seen self.old) (λ h. let before = told h self.old.journal.items in
            IfOk result (λ answer. answer ≡ (after h before.state entry).answer)) }
    {
        let place = self.journal.len();
        self.journal.push(entry)?;
        let entry = &self.journal[place];
        let answer = take_one(alloc, topology, &mut self.agent, entry, &mut self.unsaid)?;
        Ok(answer)
    }

    /// All of its journal is synced, and what it causes is said.
    pub fn sync(&mut self) -> Result<(), AllocError>
        requires kept { IsKept self.old }
        ensures kept { OnOk result (IsKept self.new) }
        ensures seen { let count = length self.old.journal.items in
            OnOk result (seen self.new ≡ record (seen self.old) { synced = count }) }
    {
        note_all(&mut self.got, self.synced, &self.journal)?;
        self.said.add_all(&mut self.unsaid)?;
        self.synced = self.journal.len();
        Ok(())
    }

    /// It begins again with so many entries, all of which are synced then.
    pub fn restart(
        &mut self,
        alloc: Global,
        topology: &'t Topology,
        count: usize,
    ) -> Result<(), AllocError>
        requires kept { IsKept self.old }
        requires network { topology.now ≡ self.old.agent.network }
        requires from { self.old.synced ≤ count }
        requires to { count ≤ length self.old.journal.items }
        ensures kept { OnOk result (IsKept self.new) }
        ensures seen { let journal = take count self.old.journal.items in
            OnOk result (seen self.new
            ≡ record (seen self.old) { journal = journal; synced = count }) }
    {
        if count < self.journal.len() {
            self.begin_again(alloc, topology, count)?;
        }
        self.sync()
    }

    /// Takes the first so many entries anew.
    fn begin_again(
        &mut self,
        alloc: Global,
        topology: &'t Topology,
        count: usize,
    ) -> Result<(), AllocError>
        requires kept { IsKept self.old }
        requires network { topology.now ≡ self.old.agent.network }
        requires from { self.old.synced ≤ count }
        requires to { count ≤ length self.old.journal.items }
        ensures kept { OnOk result (IsKept self.new) }
        ensures seen { let journal = take count self.old.journal.items in
            OnOk result (seen self.new ≡ record (seen self.old) { journal = journal }) }
    {
        self.agent.facts();
        self.journal.truncate(count);
        self.unsaid.clear();
        let number = self.agent.number();
        let agent = fold(alloc, topology, number, &self.journal, &mut self.unsaid)?;
        put(&mut self.agent, agent);
        leave_out(&mut self.unsaid, self.said.len())?;
        Ok(())
    }

    /// Whether it has said the message.
    pub fn has_said(&self, alloc: Global, message: &Message) -> Result<bool, AllocError>
        requires kept { IsKept self.now }
        requires printable { IsPrintable message.now }
        ensures { AtSeen (seen self.now) (λ h. IfOk result
            (λ is. (is ≡ true) ↔ Contains (said_by h (seen self.now)) message.now)) }
    {
        self.said.has(alloc, message)
    }

    /// The message of that identity which it has said and which is spelled so, where it finds one.
    pub fn said_as(
        &self,
        alloc: Global,
        identity: &Identity,
        text: &[u8],
    ) -> Result<Option<Message>, AllocError>
        requires kept { IsKept self.now }
        ensures { AtSeen (seen self.now) (λ h. IfOk result (λ found. IfSome found
            (IsFoundIn (said_by h (seen self.now)) text.now))) }
    {
        self.said.find(alloc, identity, text)
    }

    /// Whether it has taken a message of the identity by a synced entry.
    pub fn has_taken(&self, alloc: Global, identity: &Identity) -> Result<bool, AllocError>
        requires kept { IsKept self.now }
        ensures { IfOk result (λ is. (is ≡ true) ↔ HasTaken (seen self.now) identity.now) }
    {
        let mut places = Vec::new(alloc);
        self.got.note_places(identity.correlation, &mut places)?;
        let journal: &[Entry] = &self.journal;
        Ok(takes_at_one(&journal[..self.synced], &places, identity))
    }
}
