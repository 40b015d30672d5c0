//! What an agent says of a connection, and of a request that it refuses.

ghost use Rattle.std.specs.Prelude.{◌≡◌, ◌++◌, ◌∷◌, [], IfOk, OnOk};
ghost use Rattle.connection_record.specs.Replies.{addressed};
ghost use Rattle.agent_state.specs.Entries.{error_reply, query_reply};

use connection_record::Reply;
use nsi_base::Name;
use nsi_primitive::{Body, Cause, ErrorName, Exception, Header, Message};
use std::alloc::{AllocError, Global};

fn message_of(provider: &Name, requester: &Name, reply: Reply) -> Result<Message, AllocError>
    ensures { IfOk result (λ m. m ≡ record {
      header = record {
        correlation = reply.correlation;
        requester = requester.now;
        provider = provider.now;
      };
      body = reply.body;
    }) }
{
    let header = Header {
        correlation: reply.correlation,
        requester: requester.copy()?,
        provider: provider.copy()?,
    };
    Ok(Message {
        header,
        body: reply.body,
    })
}

fn push_reply(
    out: &mut Vec<Message>,
    agent: &Name,
    owner: &Name,
    reply: Reply,
) -> Result<(), AllocError>
    ensures { let said = addressed agent.now owner.now (reply ∷ []) in
        OnOk result (out.new.items ≡ out.old.items ++ said) }
{
    let message = message_of(agent, owner, reply)?;
    out.push(message)?;
    Ok(())
}

/// The agent says what a record says, to its owner. Where memory is wanting it may have said the first ones.
pub fn push_replies(
    out: &mut Vec<Message>,
    agent: &Name,
    owner: &Name,
    replies: Vec<Reply>,
) -> Result<(), AllocError>
    ensures { let said = addressed agent.now owner.now replies.items in
        OnOk result (out.new.items ≡ out.old.items ++ said) }
{
    for reply in replies {
        push_reply(out, agent, owner, reply)?;
    }
    Ok(())
}

/// The answer to a request that is refused.
pub fn refusal_of(
    alloc: Global,
    agent: &Name,
    message: &Message,
    error: ErrorName,
) -> Result<Vec<Message>, AllocError>
    ensures { IfOk result (λ out. out.items ≡ error_reply agent.now message.now error ∷ []) }
{
    let header = message.header.copy()?;
    let nsa = agent.copy()?;
    let mut out = Vec::new(alloc);
    out.push(Message {
        header,
        body: Body::Error {
            connection: message.body.connection(),
            exception: Exception {
                nsa,
                cause: Cause::Plain(error),
            },
        },
    })?;
    Ok(out)
}

/// The answer to a query: that body, or an error where another agent is asked, or where there is nothing to answer.
pub fn reply_of(
    alloc: Global,
    agent: &Name,
    message: &Message,
    answer: Option<Body>,
) -> Result<Vec<Message>, AllocError>
    ensures { IfOk result (λ out. out.items ≡ query_reply agent.now message.now answer ∷ []) }
{
    if !message.header.provider.is(agent) {
        return refusal_of(alloc, agent, message, ErrorName::WrongProvider);
    }
    let Some(body) = answer else {
        return refusal_of(alloc, agent, message, ErrorName::Nonexistent);
    };
    let header = message.header.copy()?;
    let mut out = Vec::new(alloc);
    out.push(Message { header, body })?;
    Ok(out)
}
