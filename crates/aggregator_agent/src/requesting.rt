//! How a connection takes a request, with all that it causes.

ghost use Rattle.std.specs.Prelude.{◌≡◌, ℕ, IfOk, OnOk, OnErr};
ghost use Rattle.std.specs.Prelude.{List as Sequence};
ghost use Rattle.agent_state.specs.declared.parent.Leg.{Leg as LegValue};
ghost use Rattle.connection_record.specs.Later.{IsLater};
ghost use Rattle.aggregator_agent.specs.Asking.{with_path};
ghost use Rattle.aggregator_agent.specs.Setting.{IsRoute};
ghost use Rattle.aggregator_agent.specs.Bonds.{bond};
ghost use Rattle.aggregator_agent.specs.Requesting.{IsRequested};
ghost use Rattle.aggregator_agent.specs.Indexed.{Grows, IsNamedAgain};

use crate::connection::Connection;
use crate::connection_index::ConnectionIndex;
use crate::entering::Entering;
use crate::outbox::Outbox;
use crate::route::views_between;
use crate::said::Said;
use nsi_base::{AgentNo, RecordNo};
use nsi_primitive::{Body, Message};
use std::alloc::{AllocError, Global};
use stp_topology::Topology;

/// Of which record at which place, and the number of the next id.
#[derive(Clone, Copy)]
pub struct Start {
    pub number: RecordNo,
    pub place: usize,
    pub next: u64,
}

/// A connection takes a request of its owner, and what it says waits. Where memory is wanting, nothing has changed.
pub fn request(
    topology: &Topology,
    connection: &mut Connection,
    index: &mut ConnectionIndex,
    outbox: &mut Outbox,
    entering: &Entering<'_>,
    start: Start,
) -> Result<Said, AllocError>
    ensures by { (route : ℕ → ℕ → Sequence LegValue) →
        IsRoute topology.now entering.now.agent.now.number route →
        IfOk result (λ said. IsRequested (bond connection.old) (bond connection.new)
        outbox.old outbox.new said entering.now start route) }
    ensures some { IfOk result (λ said. (route : ℕ → ℕ → Sequence LegValue) ×
        IsRequested (bond connection.old) (bond connection.new)
        outbox.old outbox.new said entering.now start route) }
    ensures grows { Grows index.old index.new }
    ensures named { OnOk result
        (IsNamedAgain index.new start.place (bond connection.old) (bond connection.new)) }
    ensures back { OnErr result (bond connection.new ≡ bond connection.old) }
    ensures unsaid { OnErr result (outbox.new.retry ≡ outbox.old.retry) }
    ensures undue { OnErr result (outbox.new.dues ≡ outbox.old.dues) }
{
    let kept = connection.keep(entering.alloc, start.place)?;
    match request_and_store(topology, connection, index, outbox, entering, start) {
        Ok(said) => Ok(said),
        Err(error) => {
            connection.go_back(kept);
            Err(error)
        }
    }
}

/// The same, but that the connection may have changed where memory is wanting, and can go back.
fn request_and_store(
    topology: &Topology,
    connection: &mut Connection,
    index: &mut ConnectionIndex,
    outbox: &mut Outbox,
    entering: &Entering<'_>,
    start: Start,
) -> Result<Said, AllocError>
    ensures by { (route : ℕ → ℕ → Sequence LegValue) →
        IsRoute topology.now entering.now.agent.now.number route →
        IfOk result (λ said. IsRequested (bond connection.old) (bond connection.new)
        outbox.old outbox.new said entering.now start route) }
    ensures some { IfOk result (λ said. (route : ℕ → ℕ → Sequence LegValue) ×
        IsRequested (bond connection.old) (bond connection.new)
        outbox.old outbox.new said entering.now start route) }
    ensures unsaid { OnErr result (outbox.new.retry ≡ outbox.old.retry) }
    ensures undue { OnErr result (outbox.new.dues ≡ outbox.old.dues) }
    ensures later { IsLater connection.old.own connection.new.own }
    ensures grows { Grows index.old index.new }
    ensures named { OnOk result
        (IsNamedAgain index.new start.place (bond connection.old) (bond connection.new)) }
{
    let before = connection.end();
    let Entering { alloc, agent, .. } = *entering;
    connection.find_children(alloc, topology, agent.number, entering.message)?;
    let mut said = Said::new(alloc, start.next);
    connection.take_request(&mut said, entering, start.number)?;
    index.name(start.place, connection, before)?;
    outbox.store(alloc, &said)?;
    Ok(said)
}

impl Connection {
    /// A reserve looks for children where there are none.
    #[tactic(auto, unfolding(crate::specs::Asking::with_path))]
    fn find_children(
        &mut self,
        alloc: Global,
        topology: &Topology,
        aggregator: AgentNo,
        message: &Message,
    ) -> Result<(), AllocError>
        ensures children { (route : ℕ → ℕ → Sequence LegValue) →
            IsRoute topology.now aggregator route →
            let legs = route self.old.own.source self.old.own.dest in
            let children = with_path message.now.body self.old.children.items legs in
            OnOk result (self.new.children.items ≡ children) }
        ensures some { OnOk result ((legs : Sequence LegValue) ×
            (self.new.children.items
            ≡ with_path message.now.body self.old.children.items legs)) }
        ensures own { self.new.own ≡ self.old.own }
    {
        let Body::Reserve(_) = &message.body else {
            return Ok(());
        };
        if !self.children.is_empty() {
            return Ok(());
        }
        let (source, dest) = (self.own.source, self.own.dest);
        self.children = views_between(alloc, topology, aggregator, source, dest)?;
        Ok(())
    }
}
