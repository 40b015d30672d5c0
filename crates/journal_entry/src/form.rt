//! The forms of payloads.

ghost use Rattle.std.specs.Prelude.{◌≡◌};
ghost use Rattle.journal_entry.specs.Forms.{times_of, has_start, holds_message, asks_both_ways, holds_ask, form_of, form_byte};

use json_primitives::TimeForm;
use nsi_primitive::{Ask, Body, Directionality, Message, What};

/// The spelling of times in a payload: One has numbers, Two date-times. One has neither a reserve without a start nor an
/// ask for one way.
#[derive(Clone, Copy, Debug, PartialEq, Eq)]
pub enum Form {
    One,
    Two,
}

impl Form {
    /// How the times of messages are written.
    pub fn times(self) -> TimeForm
        ensures { result ≡ times_of self }
    {
        match self {
            Form::One => TimeForm::Number,
            Form::Two => TimeForm::DateTime,
        }
    }

    /// Whether it has a spelling for a message.
    pub fn holds_message(self, message: &Message) -> bool
        ensures { result ≡ holds_message self message.now }
    {
        match self {
            Form::One => has_start(&message.body),
            Form::Two => true,
        }
    }

    /// Whether it has a spelling for an ask.
    pub fn holds_ask(self, ask: &Ask) -> bool
        ensures { result ≡ holds_ask self ask.now }
    {
        match self {
            Form::One => asks_both_ways(&ask.what),
            Form::Two => true,
        }
    }

    /// The form of what stands behind this byte.
    pub fn of_byte(byte: u8) -> Option<Self>
        ensures { result ≡ form_of byte }
    {
        match byte {
            1 => Some(Form::One),
            2 => Some(Form::Two),
            _ => None,
        }
    }

    /// The byte before the entries.
    pub fn byte(self) -> u8
        ensures { result ≡ form_byte self }
    {
        match self {
            Form::One => 1,
            Form::Two => 2,
        }
    }
}

fn has_start(body: &Body) -> bool
    ensures { result ≡ has_start body.now }
{
    match body {
        Body::Reserve(reserve) => reserve.start.is_some(),
        _ => true,
    }
}

fn asks_both_ways(what: &What) -> bool
    ensures { result ≡ asks_both_ways what.now }
{
    match what {
        What::Reserve(reserve) => matches!(reserve.directionality, Directionality::Bidirectional),
        _ => true,
    }
}
