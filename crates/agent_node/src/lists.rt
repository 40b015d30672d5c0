//! Lists of what can be written.

ghost use Rattle.std.specs.Prelude.{◌≡◌, [], ◌∷◌, ◌++◌, OnOk, OnErr};
ghost use Rattle.std.specs.List.{All};
ghost use Rattle.nsi_primitive.specs.Printable.{IsPrintable, IsPrintableEvent, IsPrintableTaken};
ghost use Rattle.json_primitives.specs.Inputs.{input_spelling};
ghost use Rattle.agent_node.specs.Seat.{entered};
ghost use Rattle.agent_node.specs.Turns.{sync_event};
ghost use Rattle.agent_node.specs.Restarts.{restart_event, restart_events};
ghost use Rattle.message_retry.specs.Retry.{is_waiting};

use message_retry::is_of;
use nsi_base::AgentNo;
use nsi_primitive::{AskAnswer, Entry, Event, Happening, Identity, Message};
use std::alloc::{AllocError, Global};
use std::marker::Model;
use std::mem;
use trace_text::SpelledEvent;

/// Messages that aren't said yet.
#[derive(Drop)]
pub struct Messages {
    items: Vec<Message>,
}

impl Model for Messages {
    ghost use Rattle.std.specs.Prelude.{List};
    ghost use Rattle.std.specs.List.{All};
    ghost use Rattle.nsi_primitive.specs.Printable.{IsPrintable};
    ghost use Rattle.nsi_primitive.specs.declared.message.Message.{Message as AMessage};

    ghost Value = { List AMessage };

    ghost view = { λ l. l.items.items };

    ghost invariant = { λ l. All IsPrintable l.items.items };
}

impl Messages {
    pub fn new(alloc: Global) -> Self
        ensures { result ≡ [] }
    {
        Messages {
            items: Vec::new(alloc),
        }
    }

    /// Puts these behind.
    pub fn append(&mut self, mut more: Vec<Message>) -> Result<(), AllocError>
        requires { All IsPrintable more.items }
        ensures { OnOk result (self.new ≡ self.old ++ more.items) }
    {
        self.items.append(&mut more)?;
        Ok(())
    }

    /// Hands all out.
    pub fn take_all(&mut self) -> Vec<Message>
        ensures all { result.items ≡ self.old }
        ensures printable { All IsPrintable result.items }
        ensures none { self.new ≡ [] }
    {
        let alloc = *self.items.allocator();
        mem::replace(&mut self.items, Vec::new(alloc))
    }

    pub fn clear(&mut self)
        ensures { self.new ≡ [] }
    {
        self.items.clear();
    }

    /// Whether one of them is of the identity.
    #[tactic(auto, unfolding(message_retry::specs::Retry::is_waiting))]
    pub fn has(&self, identity: &Identity) -> bool
        ensures { result ≡ is_waiting identity.now self.now }
    {
        self.items.iter().any(|message| is_of(message, identity))
    }
}

/// Events that weren't taken away yet.
#[derive(Drop)]
pub struct Events {
    items: Vec<SpelledEvent>,
}

impl Model for Events {
    ghost use Rattle.std.specs.Prelude.{List};
    ghost use Rattle.std.specs.List.{All};
    ghost use Rattle.nsi_primitive.specs.Printable.{IsPrintableEvent};
    ghost use Rattle.nsi_primitive.specs.declared.entry.Event.{Event as AnEvent};

    ghost Value = { List AnEvent };

    ghost view = { λ l. l.items.items };

    ghost invariant = { λ l. All IsPrintableEvent l.items.items };
}

impl Events {
    pub fn new(alloc: Global) -> Self
        ensures { result ≡ [] }
    {
        Events {
            items: Vec::new(alloc),
        }
    }

    /// Puts an entry that was taken behind, with the JSON of the parcel that it took.
    #[tactic(auto, using(crate::proofs::Rows::one_event_more))]
    pub fn push_entry(
        &mut self,
        agent: AgentNo,
        entry: Entry,
        answer: &Option<AskAnswer>,
        line: Vec<u8>,
    ) -> Result<(), AllocError>
        requires printable { IsPrintableTaken entry answer.now }
        requires line { line.items ≡ input_spelling entry.input }
        ensures { OnOk result (self.new ≡ self.old ++ entered agent entry answer.now ∷ []) }
    {
        let what = Happening::Entry {
            entry,
            answer: same_answer(answer),
        };
        self.items
            .push(SpelledEvent::new(Event { agent, what }, line))?;
        Ok(())
    }

    /// Puts a sync behind.
    #[tactic(auto, using(crate::proofs::Rows::one_event_more))]
    pub fn push_sync(&mut self, agent: AgentNo, count: u64) -> Result<(), AllocError>
        ensures { OnOk result (self.new ≡ self.old ++ sync_event agent count ∷ []) }
    {
        let what = Happening::Sync { count };
        let alloc = *self.items.allocator();
        self.items
            .push(SpelledEvent::bare(alloc, Event { agent, what }))?;
        Ok(())
    }

    /// Puts a restart behind.
    #[tactic(auto, using(crate::proofs::Rows::one_event_more))]
    pub fn push_restart(&mut self, agent: AgentNo, count: u64) -> Result<(), AllocError>
        ensures { OnOk result (self.new ≡ self.old ++ restart_event agent count ∷ []) }
    {
        let what = Happening::Restart { count };
        let alloc = *self.items.allocator();
        self.items
            .push(SpelledEvent::bare(alloc, Event { agent, what }))?;
        Ok(())
    }

    /// Puts a restart behind, and as many more as there were tries before it.
    pub fn push_restarts(
        &mut self,
        agent: AgentNo,
        count: u64,
        tries: u64,
    ) -> Result<(), AllocError>
        ensures { OnOk result (self.new
            ≡ self.old ++ restart_event agent count ∷ restart_events tries agent count) }
    {
        for _ in 0..tries {
            self.push_restart(agent, count)?;
        }
        self.push_restart(agent, count)?;
        Ok(())
    }

    /// Puts all behind others. It keeps the memory for as many.
    pub fn move_to(&mut self, others: &mut Vec<SpelledEvent>) -> Result<(), AllocError>
        requires { All IsPrintableEvent others.old.items }
        ensures moved { OnOk result (others.new.items ≡ others.old.items ++ self.old) }
        ensures printable { OnOk result (All IsPrintableEvent others.new.items) }
        ensures none { OnOk result (self.new ≡ []) }
        ensures same { OnErr result (self.new ≡ self.old) }
    {
        others.append(&mut self.items)
    }
}

fn same_answer(answer: &Option<AskAnswer>) -> Option<AskAnswer>
    ensures { result ≡ answer.now }
{
    match answer {
        Some(told) => Some(*told),
        None => None,
    }
}
