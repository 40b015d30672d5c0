//! How much a command may be asked for.
#![tactic(auto)]

ghost use Rattle.std.specs.Prelude.{◌≡◌, ◌≤◌};
ghost use Rattle.nsi_base.specs.Range.{within};
ghost use Rattle.command_limits.specs.Limits.{most_events};

use std::marker::Model;

/// How many events there may be at most.
#[derive(Clone, Copy, Debug, PartialEq, Eq)]
pub struct EventLimit {
    value: u64,
}

impl Model for EventLimit {
    ghost use Rattle.std.specs.Prelude.{ℕ, ◌≤◌};

    ghost Value = { ℕ };

    ghost view = { λ n. n.value };

    ghost invariant = { λ n. n.value ≤ 2000000 };

    ghost inverse = { λ n. record { value = n } };
}

impl EventLimit {
    /// The greatest limit.
    pub const MAX: u64 = 2_000_000;

    /// The limit where none is given.
    pub fn greatest() -> Self
        ensures { result ≡ most_events }
    {
        EventLimit { value: Self::MAX }
    }

    /// A limit within the greatest one, and not zero.
    pub fn new(n: u64) -> Option<Self>
        ensures { result ≡ within 1 Self.MAX n }
    {
        if 1 <= n && n <= Self::MAX {
            Some(EventLimit { value: n })
        } else {
            None
        }
    }

    /// The limit as a number.
    pub fn get(self) -> u64
        ensures value { result ≡ self }
        ensures in_range { self ≤ Self.MAX }
    {
        self.value
    }
}

/// By how many workers a round is made at most.
#[derive(Clone, Copy, Debug, PartialEq, Eq)]
pub struct Workers {
    value: u8,
}

impl Model for Workers {
    ghost use Rattle.std.specs.Prelude.{ℕ, ◌≤◌};

    ghost Value = { ℕ };

    ghost view = { λ n. n.value };

    ghost invariant = { λ n. n.value ≤ 64 };

    ghost inverse = { λ n. record { value = n } };
}

impl Workers {
    /// The greatest number, which is that of the agents of a topology.
    pub const MAX: u64 = 64;

    /// The number where none is given.
    pub fn one() -> Self
        ensures { result ≡ 1 }
    {
        Workers { value: 1 }
    }

    /// A number within the greatest one, and not zero.
    pub fn new(n: u64) -> Option<Self>
        ensures { result ≡ within 1 Self.MAX n }
    {
        if 1 <= n && n <= Self::MAX {
            Some(Workers { value: n as u8 })
        } else {
            None
        }
    }

    /// How many there are.
    pub fn get(self) -> usize
        ensures { result ≡ self }
    {
        usize::from(self.value)
    }
}
