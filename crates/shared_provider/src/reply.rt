//! What a book answers.

use nsi_primitive::{Event, Message};

/// What a call of a book did.
#[derive(Drop)]
pub struct Reply {
    /// The place of the entry in the history; none where the message was seen before, or no work waited.
    pub place: Option<u64>,
    /// What stands at that place.
    pub event: Option<Event>,
    /// How many entries are synced.
    pub durable: u64,
    /// The messages that the entry causes.
    pub messages: Vec<Message>,
}

/// Why a book took nothing.
#[derive(Clone, Copy, Debug, PartialEq, Eq)]
pub enum BookFault {
    /// A call of its disk failed or stopped it: the book is closed from now on.
    DiskFault { faults: u64 },
    /// An earlier call broke the disk.
    Closed { faults: u64 },
    /// It has taken 4,194,304 entries.
    Full,
    /// The book is as before; its disk may have been written to, but has counted nothing.
    NoMemory,
}
