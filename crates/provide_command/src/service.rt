//! A provider that serves the lines behind a topology.

ghost use Rattle.std.specs.Prelude.{◌≡◌, ◌<◌, ◌≤◌, length, All, IfOk, option_map};
ghost use Rattle.nsi_primitive.specs.Printable.{IsPrintable, IsPrintableEntry};
ghost use Rattle.stp_topology.specs.Sound.{IsProvider};
ghost use Rattle.provide_command.specs.Receiving.{IsTimely, IsTimelyEntry};
ghost use Rattle.provide_command.specs.Lines.{entered, answered, serve, lines_of_messages};

use crate::payload::payload;
use crate::receiving::{Received, receive};
use crate::replay::replay;
use command_limits::EventLimit;
use json_primitives::print_message;
use nsi_base::AgentNo;
use nsi_primitive::{Entry, Message};
use provider_agent::Provider;
use provider_run::{Taken, take_with_works};
use std::alloc::{AllocError, Global};
use std::marker::Model;
use stp_topology::Topology;

/// A provider with its topology, how many events there were beside the entries that it has taken, and how many there may be.
#[derive(Drop)]
pub struct Service {
    topology: Topology,
    provider: Provider,
    others: u64,
    most: EventLimit,
}

/// What a line makes: the entries that its journal has to keep, and what is written for it then.
#[derive(Drop)]
pub(crate) struct Answer {
    pub(crate) entries: Vec<Entry>,
    pub(crate) text: Vec<u8>,
}

impl Model for Service {
    ghost use Rattle.provide_command.specs.Serving.{Serving};
    ghost use Rattle.provide_command.specs.Service.{IsServing};

    ghost Value = { Serving };

    ghost view = { λ s. record
        { network = s.topology; standing = s.provider; others = s.others; most = s.most } };

    ghost invariant = { λ s. IsServing
        (record { network = s.topology; standing = s.provider; others = s.others; most = s.most }) };
}

impl Service {
    ghost use Rattle.provide_command.specs.Serving.{serving_of, with_answer};
    ghost use Rattle.provide_command.specs.Halts.{ArePrintable};

    /// The provider of a topology, which has taken the entries of its journal. There may be so many events, with those entries.
    pub(crate) fn open(
        alloc: Global,
        topology: Topology,
        provider: AgentNo,
        most: EventLimit,
        entries: &[Entry],
    ) -> Result<Service, AllocError>
        requires within { provider < length topology.agents }
        requires provider { IsProvider topology provider }
        requires few { length entries.now ≤ most }
        requires printable { All IsPrintableEntry entries.now }
        ensures { IfOk result (λ s. s ≡ serving_of topology provider entries.now most) }
    {
        let mut provider = Provider::new(alloc, &topology, provider)?;
        replay(alloc, &mut provider, &topology, entries)?;
        let others = entries.len() as u64 - provider.taken();
        Ok(Service {
            topology,
            provider,
            others,
            most,
        })
    }

    /// What a line behind the topology makes, where there aren't too many events.
    pub(crate) fn serve(
        &mut self,
        alloc: Global,
        number: u64,
        line: &[u8],
    ) -> Result<Option<Answer>, AllocError>
        ensures served { IfOk result
            (λ a. serve self.old number line.now ≡ option_map (with_answer self.new) a) }
        ensures printable { IfOk result ArePrintable }
    {
        let received = receive(alloc, &self.provider, line)?;
        self.answer(alloc, number, &received)
    }

    /// Answers what a line says.
    fn answer(
        &mut self,
        alloc: Global,
        number: u64,
        received: &Received,
    ) -> Result<Option<Answer>, AllocError>
        requires { IsTimely self.old.standing.state received.now }
        ensures answered { IfOk result
            (λ a. answered received.now self.old number ≡ option_map (with_answer self.new) a) }
        ensures printable { IfOk result ArePrintable }
    {
        match received {
            Received::Nothing => Ok(Some(Answer {
                entries: Vec::new(alloc),
                text: Vec::new(alloc),
            })),
            Received::Fault(fault) => {
                let text = payload(alloc, number, *fault)?;
                Ok(Some(Answer {
                    entries: Vec::new(alloc),
                    text,
                }))
            }
            Received::Entry(entry) => self.take(alloc, entry),
        }
    }

    /// Takes an entry and all work that waits then; they and one sync behind them are events.
    #[tactic(auto, unfolding(crate::specs::Lines::entered))]
    fn take(&mut self, alloc: Global, entry: &Entry) -> Result<Option<Answer>, AllocError>
        requires { IsTimelyEntry self.old.standing.state entry.now }
        ensures entered { IfOk result
            (λ a. entered self.old entry.now ≡ option_map (with_answer self.new) a) }
        ensures printable { IfOk result ArePrintable }
    {
        let most = self.most.get();
        if self.provider.taken() >= most - self.others {
            return Ok(None);
        }
        let taken = take_with_works(alloc, &mut self.provider, &self.topology, entry)?;
        if self.provider.taken() >= most - self.others {
            return Ok(None);
        }
        self.others += 1;
        let Taken { entries, messages } = taken;
        let text = lines_of_messages(alloc, &messages)?;
        Ok(Some(Answer { entries, text }))
    }
}

/// Messages, each as a line.
fn lines_of_messages(alloc: Global, messages: &[Message]) -> Result<Vec<u8>, AllocError>
    requires { All IsPrintable messages.now }
    ensures { IfOk result (λ text. text.items ≡ lines_of_messages messages.now) }
{
    let mut text = Vec::new(alloc);
    for message in messages {
        let line = print_message(alloc, message)?;
        text.extend_from_slice(&line)?;
        text.push(b'\n')?;
    }
    Ok(text)
}
