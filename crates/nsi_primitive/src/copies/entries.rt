//! Copies of asks, entries and events.

ghost use Rattle.std.specs.Prelude.{◌≡◌, IfOk};

use crate::ask::{Ask, ReserveAsk, What};
use crate::entry::{Entry, Event, Happening, Input};
use nsi_base::copy_name;
use std::alloc::AllocError;

impl ReserveAsk {
    pub fn copy(&self) -> Result<ReserveAsk, AllocError>
        ensures { IfOk result (λ r. r ≡ self.now) }
    {
        Ok(ReserveAsk {
            source: self.source.copy()?,
            dest: self.dest.copy()?,
            capacity: self.capacity,
            start: self.start,
            end: self.end,
            version: self.version,
            directionality: self.directionality,
        })
    }
}

impl What {
    pub fn copy(&self) -> Result<What, AllocError>
        ensures { IfOk result (λ w. w ≡ self.now) }
    {
        match self {
            What::Reserve(reserve) => Ok(What::Reserve(reserve.copy()?)),
            What::Commit => Ok(What::Commit),
            What::Abort => Ok(What::Abort),
            What::Provision => Ok(What::Provision),
            What::Release => Ok(What::Release),
            What::Terminate => Ok(What::Terminate),
            What::Summary => Ok(What::Summary),
            What::Notifications(numbers) => Ok(What::Notifications(*numbers)),
            What::Results(numbers) => Ok(What::Results(*numbers)),
            What::Recursive => Ok(What::Recursive),
        }
    }
}

impl Ask {
    pub fn copy(&self) -> Result<Ask, AllocError>
        ensures { IfOk result (λ a. a ≡ self.now) }
    {
        Ok(Ask {
            label: copy_name(&self.label)?,
            what: self.what.copy()?,
        })
    }
}

impl Input {
    pub fn copy(&self) -> Result<Input, AllocError>
        ensures { IfOk result (λ i. i ≡ self.now) }
    {
        match self {
            Input::Ask { number, ask } => Ok(Input::Ask {
                number: *number,
                ask: ask.copy()?,
            }),
            Input::Got(message) => Ok(Input::Got(message.copy()?)),
            Input::Work { number, machine } => Ok(Input::Work {
                number: *number,
                machine: *machine,
            }),
            Input::Tick => Ok(Input::Tick),
            Input::Force { number } => Ok(Input::Force { number: *number }),
            Input::Acked(identity) => Ok(Input::Acked(identity.copy()?)),
        }
    }
}

impl Entry {
    pub fn copy(&self) -> Result<Entry, AllocError>
        ensures { IfOk result (λ e. e ≡ self.now) }
    {
        Ok(Entry {
            second: self.second,
            input: self.input.copy()?,
        })
    }
}

impl Happening {
    pub fn copy(&self) -> Result<Happening, AllocError>
        ensures { IfOk result (λ h. h ≡ self.now) }
    {
        match self {
            Happening::Entry { entry, answer } => Ok(Happening::Entry {
                entry: entry.copy()?,
                answer: *answer,
            }),
            Happening::Sync { count } => Ok(Happening::Sync { count: *count }),
            Happening::Restart { count } => Ok(Happening::Restart { count: *count }),
        }
    }
}

impl Event {
    pub fn copy(&self) -> Result<Event, AllocError>
        ensures { IfOk result (λ e. e ≡ self.now) }
    {
        Ok(Event {
            agent: self.agent,
            what: self.what.copy()?,
        })
    }
}
