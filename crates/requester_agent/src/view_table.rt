//! The views of a requester, which are found without going over all of them.

ghost use Rattle.std.specs.Prelude.{◌≡◌, ◌<◌, ◌++◌, ◌∷◌, [], true, None, All, length, map, position, vec_len, vec_capacity, IfSome, OnOk, OnErr};
ghost use Rattle.std.specs.Str.{bytes_eq};
ghost use Rattle.message_retry.specs.Retry.{saw};
ghost use Rattle.child_connection.specs.Refusals.{is_about};
ghost use Rattle.child_connection.specs.Views.{new_view};
ghost use Rattle.requester_agent.specs.Good.{IsApart};
ghost use Rattle.requester_agent.specs.Step.{IsAskedAt, IsAskedNew};
ghost use Rattle.requester_agent.specs.Steps.{view_hears};
ghost use Rattle.requester_agent.specs.Views.{asks_about, asks_reserve};

use crate::asking::{ask_about, ask_reserve};
use crate::hearing::{hear_at, name_learnt, places_told};
use crate::labels::Labels;
use agent_state::View;
use id_index::IdIndex;
use message_retry::Retry;
use nsi_base::Name;
use nsi_primitive::{AskAnswer, Id, Kind, Message, ReserveAsk};
use std::alloc::{AllocError, Global};
use std::marker::Model;

/// Views in the order in which their labels were first reserved. What is sent waits for its acknowledgement.
#[derive(Drop)]
pub struct ViewTable {
    views: Vec<View>,
    labels: Labels,
    /// The correlations and connections to which the views listen, and maybe some to which none listens any more.
    ids: IdIndex,
}

impl Model for ViewTable {
    ghost use Rattle.std.specs.Prelude.{List};
    ghost use Rattle.agent_state.specs.declared.parent.View.{View};
    ghost use Rattle.requester_agent.specs.Indexed.{IsIndexed};

    ghost Value = { List View };

    ghost view = { λ t. t.views.items };

    ghost invariant = { λ t. IsIndexed t.views.items t.labels t.ids };
}

impl ViewTable {
    pub fn new(alloc: Global) -> ViewTable
        ensures { result ≡ [] }
    {
        ViewTable {
            views: Vec::new(alloc),
            labels: Labels::new(alloc),
            ids: IdIndex::new(alloc),
        }
    }

    pub fn views(&self) -> &[View]
        ensures { result.now ≡ self.now }
    {
        &self.views
    }

    /// The place of the view of a label. It takes no memory.
    pub fn find(&self, label: &Name) -> Option<usize>
        ensures place { result ≡ position (λ v. bytes_eq label.now v.label) self.now }
        ensures within { IfSome result (λ n. n < length self.now) }
    {
        self.labels.place(label)
    }

    /// Asks the view at a place about the connection.
    pub fn ask_about(
        &mut self,
        alloc: Global,
        place: usize,
        retry: &mut Retry,
        parent: &Name,
        correlation: Id,
        kind: Kind,
    ) -> Result<(AskAnswer, Vec<Message>), AllocError>
        requires about { is_about kind ≡ true }
        requires within { place < length self.old }
        ensures { IsAskedAt place self.old self.new retry.old retry.new result
            (asks_about parent.now correlation kind) }
    {
        self.ids.add(correlation, place)?;
        let view = &mut self.views[place];
        let asked = ask_about(alloc, view, retry, parent, correlation, kind)?;
        Ok(asked)
    }

    /// Asks the view at a place to reserve.
    pub fn ask_reserve(
        &mut self,
        alloc: Global,
        place: usize,
        retry: &mut Retry,
        parent: &Name,
        correlation: Id,
        q: &ReserveAsk,
    ) -> Result<(AskAnswer, Vec<Message>), AllocError>
        requires apart { All IsApart self.old }
        requires within { place < length self.old }
        ensures { IsAskedAt place self.old self.new retry.old retry.new result
            (asks_reserve parent.now correlation q.now) }
    {
        self.ids.add(correlation, place)?;
        let view = &mut self.views[place];
        let asked = ask_reserve(alloc, view, retry, parent, correlation, q)?;
        Ok(asked)
    }

    /// Asks a view that is new to reserve, which joins the others. There is room for it before anything is sent.
    pub fn ask_new(
        &mut self,
        alloc: Global,
        view: View,
        retry: &mut Retry,
        parent: &Name,
        correlation: Id,
        q: &ReserveAsk,
    ) -> Result<(AskAnswer, Vec<Message>), AllocError>
        requires label { position (λ v. bytes_eq view.label v.label) self.old ≡ None }
        requires unasked { let child = view.child in
            child ≡ new_view child.child child.source child.dest }
        requires apart { IsApart view }
        ensures { IsAskedNew view self.old self.new retry.old retry.new result
            (asks_reserve parent.now correlation q.now view.child) }
    {
        let mut view = view;
        self.views.reserve(1)?;
        self.ids.add(correlation, self.views.len())?;
        self.labels.push(alloc, &view.label)?;
        match ask_reserve(alloc, &mut view, retry, parent, correlation, q) {
            Ok(asked) => {
                push_in_room(&mut self.views, view);
                Ok(asked)
            }
            Err(error) => {
                self.labels.pop();
                Err(error)
            }
        }
    }

    /// Takes a message that comes for the first time, which each view hears: that is, each that it can reach.
    pub fn hear(
        &mut self,
        alloc: Global,
        retry: &mut Retry,
        message: &Message,
    ) -> Result<(), AllocError>
        ensures heard { OnOk result (self.new ≡ map (view_hears message.now) self.old) }
        ensures taken { OnOk result (retry.new ≡ saw message.now retry.old) }
        ensures unheard { OnErr result (self.new ≡ self.old) }
        ensures untaken { OnErr result (retry.new ≡ retry.old) }
    {
        let places = places_told(alloc, &self.ids, message)?;
        name_learnt(&mut self.ids, message, places.items())?;
        retry.saw(alloc, message)?;
        hear_at(&mut self.views, places.items(), message);
        Ok(())
    }
}

/// A view joins the others, for which there is room.
fn push_in_room(views: &mut Vec<View>, view: View)
    requires { vec_len views.old < vec_capacity views.old }
    ensures { views.new.items ≡ views.old.items ++ view ∷ [] }
{
    let Ok(()) = views.push(view) else {
        unreachable!()
    };
}
