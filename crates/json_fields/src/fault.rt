//! Why a line is refused.

ghost use Rattle.std.specs.Prelude.{◌≡◌};

use crate::key::Key;

/// Why a line is refused: the first of these that applies, over the keys of its kind in byte order. Memory may run
/// out at any time.
#[derive(Clone, Copy, Debug, PartialEq, Eq)]
pub enum LineFault {
    TooLong,
    NotJson,
    NotObject,
    NoKind,
    Bad(Key),
    Missing(Key),
    NoMemory,
}

impl LineFault {
    ghost use Rattle.json_fields.specs.Faults.{fault_name, fault_key};

    /// The name by which the fault is written.
    #[tactic(auto, unfolding(crate::specs::Faults::fault_name))]
    pub fn name(self) -> &'static str
        ensures { result.now ≡ fault_name self }
    {
        match self {
            LineFault::TooLong => "TooLong",
            LineFault::NotJson => "NotJson",
            LineFault::NotObject => "NotObject",
            LineFault::NoKind => "NoKind",
            LineFault::Bad(_) => "Bad",
            LineFault::Missing(_) => "Missing",
            LineFault::NoMemory => "NoMemory",
        }
    }

    /// The key that the fault is about.
    pub fn key(self) -> Option<Key>
        ensures { result ≡ fault_key self }
    {
        match self {
            LineFault::Bad(key) | LineFault::Missing(key) => Some(key),
            _ => None,
        }
    }
}
