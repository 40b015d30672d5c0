//! How children are asked for what is below them.

ghost use Rattle.std.specs.Prelude.{◌≡◌, IfOk, OnOk};
ghost use Rattle.nsi_primitive.specs.declared.message.Body.{Body as BodyValue};
ghost use Rattle.child_connection.specs.Asks.{to_child};
ghost use Rattle.aggregator_agent.specs.Below.{seek, seek_one, sought_before};
ghost use Rattle.aggregator_agent.specs.Open.{sought_by};

use crate::agent::Agent;
use agent_state::Part;
use child_connection::ChildConnection;
use nsi_primitive::{Body, Header, Id, Message};
use std::alloc::{AllocError, Global};

/// What is known of the children's rows, the requests to them, and the number of the next id.
#[derive(Drop)]
pub struct Seeking {
    pub parts: Vec<Part>,
    pub asked: Vec<Message>,
    pub next: u64,
}

/// Each child whose id is known is asked, in the order of the segments.
#[tactic(auto, unfolding(crate::specs::Below::seek))]
pub fn seek(
    alloc: Global,
    agent: &Agent,
    children: &[ChildConnection],
    next: u64,
) -> Result<Seeking, AllocError>
    ensures { IfOk result (λ x. sought_by x ≡ seek agent.now next children.now) }
{
    let mut seeking = Seeking {
        parts: Vec::new(alloc),
        asked: Vec::new(alloc),
        next,
    };
    for child in children {
        seeking.add(agent, child)?;
    }
    Ok(seeking)
}

impl Seeking {
    /// A child is asked under the next id, where its own is known.
    fn add(&mut self, agent: &Agent, child: &ChildConnection) -> Result<(), AllocError>
        ensures { let one = seek_one agent.now self.old.next child.now in
            OnOk result (sought_by self.new ≡ sought_before (sought_by self.old) one) }
    {
        let Some(connection) = child.connection() else {
            self.parts.push(Part::Missing)?;
            return Ok(());
        };
        let correlation = agent.id(self.next)?;
        let request = query_to(agent, child, correlation, connection)?;
        self.asked.push(request)?;
        self.parts.push(Part::Asked(correlation))?;
        self.next += 1;
        Ok(())
    }
}

fn query_to(
    agent: &Agent,
    child: &ChildConnection,
    correlation: Id,
    connection: Id,
) -> Result<Message, AllocError>
    ensures { IfOk result (λ m. m
        ≡ to_child agent.now.name correlation child.now (BodyValue.QueryRecursive connection)) }
{
    Ok(Message {
        header: Header {
            correlation,
            requester: agent.name.copy()?,
            provider: child.child().copy()?,
        },
        body: Body::QueryRecursive { connection },
    })
}
