//! What an aggregator says of a connection.

ghost use Rattle.std.specs.Prelude.{◌≡◌, ◌++◌, [], OnOk};
ghost use Rattle.aggregator_agent.specs.Connections.{said_by};

use crate::agent::Agent;
use crate::connection::Turning;
use agent_state::push_replies;
use nsi_base::Name;
use nsi_primitive::Message;
use std::alloc::{AllocError, Global};

fn push_all(out: &mut Vec<Message>, messages: Vec<Message>) -> Result<(), AllocError>
    ensures { OnOk result (out.new.items ≡ out.old.items ++ messages.items) }
{
    for message in messages {
        out.push(message)?;
    }
    Ok(())
}

impl Turning {
    /// A turn in which nothing is said yet.
    pub fn new(alloc: Global, next: u64) -> Turning
        ensures replies { result.replies.items ≡ [] }
        ensures asked { result.asked.items ≡ [] }
        ensures notices { result.notices.items ≡ [] }
        ensures next { result.next ≡ next }
    {
        Turning {
            replies: Vec::new(alloc),
            asked: Vec::new(alloc),
            notices: Vec::new(alloc),
            next,
        }
    }

    /// Answers first, then requests to children, then notices.
    pub fn speak(
        self,
        out: &mut Vec<Message>,
        agent: &Agent,
        owner: &Name,
    ) -> Result<(), AllocError>
        ensures { let said = said_by agent.now owner.now self in
            OnOk result (out.new.items ≡ out.old.items ++ said) }
    {
        let Turning {
            replies,
            asked,
            notices,
            ..
        } = self;
        push_replies(out, &agent.name, owner, replies)?;
        push_all(out, asked)?;
        push_replies(out, &agent.name, owner, notices)
    }
}
