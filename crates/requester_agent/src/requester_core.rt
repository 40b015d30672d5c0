//! What a requester keeps.

ghost use Rattle.std.specs.Prelude.{◌≡◌, ◌<◌, ◌≤◌, ◌+◌, ◌++◌, ◌∷◌, [], length, position, false, true, None, Some, IfSome, IfOk};
ghost use Rattle.std.specs.Str.{bytes_eq};
ghost use Rattle.nsi_primitive.specs.Printable.{IsPrintableInput, ArePointsApart};
ghost use Rattle.message_retry.specs.Retry.{is_old};
ghost use Rattle.child_connection.specs.Refusals.{is_about};
ghost use Rattle.child_connection.specs.Views.{new_view};
ghost use Rattle.agent_state.specs.State.{blank_agent};
ghost use Rattle.requester_agent.specs.Setting.{IsRequester, setting_of};
ghost use Rattle.agent_state.specs.Entries.{retry_of};
ghost use Rattle.requester_agent.specs.Steps.{find_view, asks_found, reserves, asked, hears_if, step};
ghost use Rattle.requester_agent.specs.Core.{standing_at};
ghost use Rattle.requester_agent.specs.Taking.{IsStep, IsTakenAs, IsAskable};

use crate::view_table::ViewTable;
use agent_state::View;
use child_connection::ChildConnection;
use message_retry::Retry;
use nsi_base::{AgentNo, Name, Second};
use nsi_primitive::{Ask, AskAnswer, Entry, Id, Input, Kind, Message, ReserveAsk, What, id_of};
use std::alloc::{AllocError, Global};
use stp_topology::{AgentKind, Topology};

/// A requester's fields, without a word on what is true of them.
#[derive(Drop)]
pub struct Core {
    pub name: Name,
    pub number: AgentNo,
    /// The agent that it asks.
    pub provider: Name,
    pub views: ViewTable,
    pub retry: Retry,
    /// The number of the next id.
    pub next: u64,
    pub now: Second,
    /// How many entries were taken.
    pub taken: u64,
}

impl Core {
    /// The core of a requester that has taken nothing yet.
    pub fn new(alloc: Global, topology: &Topology, agent: AgentNo) -> Result<Core, AllocError>
        requires within { agent < length topology.now.agents }
        requires requester { IsRequester topology.now agent }
        ensures { IfOk result (λ d. standing_at d ≡ record {
          setting = setting_of topology.now agent;
          state = blank_agent;
        }) }
    {
        topology.facts();
        let AgentKind::Requester { provider } = topology.kind(agent) else {
            unreachable!()
        };
        Ok(Core {
            name: topology.name(agent).copy()?,
            number: agent,
            provider: topology.name(provider).copy()?,
            views: ViewTable::new(alloc),
            retry: Retry::new(alloc),
            next: 1,
            now: Second::first(),
            taken: 0,
        })
    }

    /// Answers an ask.
    #[tactic(auto, unfolding(crate::specs::Steps::asked, crate::specs::Steps::asked_of))]
    fn ask(
        &mut self,
        alloc: Global,
        ask: &Ask,
    ) -> Result<(Option<AskAnswer>, Vec<Message>), AllocError>
        requires good { IsAskable self.old }
        requires points { ArePointsApart ask.now.what }
        ensures step { IsStep self.old self.new result
            (λ set s. asked ask.now.label ask.now.what set s) }
        ensures taken { self.new.taken ≡ self.old.taken }
    {
        let Some(label) = &ask.label else {
            return self.ask_of_all(alloc, &ask.what);
        };
        match &ask.what {
            What::Reserve(q) => self.reserve(alloc, label, q),
            What::Commit => self.ask_about(alloc, label, Kind::ReserveCommit),
            What::Abort => self.ask_about(alloc, label, Kind::ReserveAbort),
            What::Provision => self.ask_about(alloc, label, Kind::Provision),
            What::Release => self.ask_about(alloc, label, Kind::Release),
            What::Terminate => self.ask_about(alloc, label, Kind::Terminate),
            What::Summary | What::Notifications(_) | What::Results(_) | What::Recursive => {
                self.ask_query(alloc, label, &ask.what)
            }
        }
    }

    /// Asks about the connection of a label.
    #[tactic(auto, unfolding(crate::specs::Steps::asks_found))]
    fn ask_about(
        &mut self,
        alloc: Global,
        label: &Name,
        kind: Kind,
    ) -> Result<(Option<AskAnswer>, Vec<Message>), AllocError>
        requires about { is_about kind ≡ true }
        requires good { IsAskable self.old }
        ensures step { IsStep self.old self.new result
            (λ set s. asks_found (find_view label.now s.views) kind set s) }
        ensures taken { self.new.taken ≡ self.old.taken }
    {
        let Some(place) = self.views.find(label) else {
            return Ok((Some(AskAnswer::NoId), Vec::new(alloc)));
        };
        let id = id_of(self.number, self.next);
        let (views, retry) = (&mut self.views, &mut self.retry);
        let (answer, out) = views.ask_about(alloc, place, retry, &self.name, id, kind)?;
        self.next += out.len() as u64;
        Ok((Some(answer), out))
    }

    /// Asks to reserve under a label. The first reserve of a label makes its view.
    fn reserve(
        &mut self,
        alloc: Global,
        label: &Name,
        q: &ReserveAsk,
    ) -> Result<(Option<AskAnswer>, Vec<Message>), AllocError>
        requires good { IsAskable self.old }
        requires apart { bytes_eq q.now.source q.now.dest ≡ false }
        ensures step { IsStep self.old self.new result
            (λ set s. reserves (find_view label.now s.views) q.now label.now set s) }
        ensures taken { self.new.taken ≡ self.old.taken }
    {
        let Some(place) = self.views.find(label) else {
            return self.reserve_new(alloc, label, q);
        };
        let id = id_of(self.number, self.next);
        let (views, retry) = (&mut self.views, &mut self.retry);
        let (answer, out) = views.ask_reserve(alloc, place, retry, &self.name, id, q)?;
        self.next += out.len() as u64;
        Ok((Some(answer), out))
    }

    /// Makes the view of a label, and asks to reserve.
    fn reserve_new(
        &mut self,
        alloc: Global,
        label: &Name,
        q: &ReserveAsk,
    ) -> Result<(Option<AskAnswer>, Vec<Message>), AllocError>
        requires new { position (λ v. bytes_eq label.now v.label) self.old.views ≡ None }
        requires good { IsAskable self.old }
        requires apart { bytes_eq q.now.source q.now.dest ≡ false }
        ensures step { IsStep self.old self.new result
            (λ set s. reserves None q.now label.now set s) }
        ensures taken { self.new.taken ≡ self.old.taken }
    {
        let view = new_view(alloc, label, &self.provider, q)?;
        let id = id_of(self.number, self.next);
        let (views, retry) = (&mut self.views, &mut self.retry);
        let (answer, out) = views.ask_new(alloc, view, retry, &self.name, id, q)?;
        self.next += out.len() as u64;
        Ok((Some(answer), out))
    }

    /// Takes a message, which each view hears where it comes for the first time.
    #[tactic(auto, unfolding(crate::specs::Steps::hears_if))]
    fn hear(
        &mut self,
        alloc: Global,
        message: &Message,
    ) -> Result<(Option<AskAnswer>, Vec<Message>), AllocError>
        ensures step { IsStep self.old self.new result
            (λ set s. hears_if (is_old message.now (retry_of s.base)) message.now s) }
        ensures taken { self.new.taken ≡ self.old.taken }
    {
        if !self.retry.is_old(message) {
            self.views.hear(alloc, &mut self.retry, message)?;
        }
        Ok((None, Vec::new(alloc)))
    }

    /// Takes an entry, and counts it.
    pub fn take(
        &mut self,
        alloc: Global,
        entry: &Entry,
    ) -> Result<(Option<AskAnswer>, Vec<Message>), AllocError>
        requires askable { IsAskable self.old }
        requires few { self.old.taken < 4194304 }
        requires printable { IsPrintableInput entry.now.input }
        ensures { IsTakenAs self.old self.new result
            (λ set s. step entry.now.input entry.now.second set s) }
    {
        let caused = self.enter(alloc, entry)?;
        self.taken += 1;
        Ok(caused)
    }

    /// What an entry does. Work and a forced end are none of a requester's.
    #[tactic(auto, unfolding(crate::specs::Steps::step, crate::specs::Steps::ticks, crate::specs::Steps::acked))]
    fn enter(
        &mut self,
        alloc: Global,
        entry: &Entry,
    ) -> Result<(Option<AskAnswer>, Vec<Message>), AllocError>
        requires askable { IsAskable self.old }
        requires printable { IsPrintableInput entry.now.input }
        ensures step { IsStep self.old self.new result
            (λ set s. step entry.now.input entry.now.second set s) }
        ensures taken { self.new.taken ≡ self.old.taken }
    {
        match &entry.input {
            Input::Ask { ask, .. } => self.ask(alloc, ask),
            Input::Got(message) => self.hear(alloc, message),
            Input::Tick => {
                self.now = entry.second;
                Ok((None, Vec::new(alloc)))
            }
            Input::Acked(identity) => {
                let _has_waited = self.retry.acked(identity);
                Ok((None, Vec::new(alloc)))
            }
            Input::Work { .. } | Input::Force { .. } => Ok((None, Vec::new(alloc))),
        }
    }
}

/// The view of a label, which asks a provider between the points of a reserve and was asked nothing yet.
fn new_view(
    alloc: Global,
    label: &Name,
    provider: &Name,
    q: &ReserveAsk,
) -> Result<View, AllocError>
    ensures { let child = new_view provider.now q.now.source q.now.dest in
        IfOk result (λ v. v ≡ record { label = label.now; child = child }) }
{
    let (provider, source, dest) = (provider.copy()?, q.source.copy()?, q.dest.copy()?);
    Ok(View {
        label: label.copy()?,
        child: ChildConnection::new(alloc, provider, source, dest),
    })
}
