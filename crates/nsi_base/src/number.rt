//! Numbers within their ranges.

ghost use Rattle.std.specs.Prelude.{◌≡◌, ◌≤◌};
ghost use Rattle.nsi_base.specs.Range.{within, greatest_second, least_mbps, greatest_mbps, greatest_version, greatest_agent, greatest_stp, greatest_record, least_hold, greatest_hold};

use std::marker::Model;

/// A second of the time line on which schedules stand (GFD.237, the startTime and endTime of criteria).
#[derive(Clone, Copy, Debug, PartialEq, Eq, PartialOrd, Ord)]
pub struct Second {
    value: u64,
}

impl Model for Second {
    ghost use Rattle.std.specs.Prelude.{ℕ, ◌≤◌};
    ghost use Rattle.nsi_base.specs.Range.{greatest_second};

    ghost Value = { ℕ };

    ghost view = { λ n. n.value };

    ghost invariant = { λ n. n.value ≤ greatest_second };

    ghost inverse = { λ n. record { value = n } };
}

impl Second {
    /// The second at which every clock begins.
    pub fn first() -> Self
        ensures { result ≡ 0 }
    {
        Second { value: 0 }
    }

    /// The last second. An interval ends here at the latest.
    pub const MAX: u64 = 253_370_764_799;

    pub fn new(n: u64) -> Option<Self>
        ensures { result ≡ within 0 greatest_second n }
    {
        if n <= Self::MAX {
            Some(Second { value: n })
        } else {
            None
        }
    }

    pub fn get(self) -> u64
        ensures value { result ≡ self }
        ensures in_range { self ≤ greatest_second }
    {
        self.value
    }
}

/// A bandwidth in megabits per second.
#[derive(Clone, Copy, Debug, PartialEq, Eq, PartialOrd, Ord)]
pub struct Mbps {
    value: u64,
}

impl Model for Mbps {
    ghost use Rattle.std.specs.Prelude.{ℕ, ◌≤◌};
    ghost use Rattle.nsi_base.specs.Range.{least_mbps, greatest_mbps};

    ghost Value = { ℕ };

    ghost view = { λ n. n.value };

    ghost invariant = { λ n. (least_mbps ≤ n.value) × (n.value ≤ greatest_mbps) };

    ghost inverse = { λ n. record { value = n } };
}

impl Mbps {
    /// The greatest bandwidth.
    pub const MAX: u64 = 1_099_511_627_776;

    pub fn new(n: u64) -> Option<Self>
        ensures { result ≡ within least_mbps greatest_mbps n }
    {
        if 1 <= n && n <= Self::MAX {
            Some(Mbps { value: n })
        } else {
            None
        }
    }

    pub fn get(self) -> u64
        ensures value { result ≡ self }
        ensures positive { least_mbps ≤ self }
        ensures in_range { self ≤ greatest_mbps }
    {
        self.value
    }
}

/// The version of criteria (GFD.237, the version attribute of a reservation).
#[derive(Clone, Copy, Debug, PartialEq, Eq, PartialOrd, Ord)]
pub struct Version {
    value: u32,
}

impl Model for Version {
    ghost use Rattle.std.specs.Prelude.{ℕ, ◌≤◌};
    ghost use Rattle.nsi_base.specs.Range.{greatest_version};

    ghost Value = { ℕ };

    ghost view = { λ n. n.value };

    ghost invariant = { λ n. n.value ≤ greatest_version };

    ghost inverse = { λ n. record { value = n } };
}

impl Version {
    /// The version that a first reservation has where none is given.
    pub fn first() -> Self
        ensures { result ≡ 0 }
    {
        Version { value: 0 }
    }

    /// The last version.
    pub const MAX: u32 = 2_147_483_647;

    pub fn new(n: u32) -> Option<Self>
        ensures { result ≡ within 0 greatest_version n }
    {
        if n <= Self::MAX {
            Some(Version { value: n })
        } else {
            None
        }
    }

    pub fn get(self) -> u32
        ensures value { result ≡ self }
        ensures in_range { self ≤ greatest_version }
    {
        self.value
    }
}

/// The place of an agent in the order of declaration.
#[derive(Clone, Copy, Debug, PartialEq, Eq, PartialOrd, Ord)]
pub struct AgentNo {
    value: u16,
}

impl Model for AgentNo {
    ghost use Rattle.std.specs.Prelude.{ℕ, ◌≤◌};
    ghost use Rattle.nsi_base.specs.Range.{greatest_agent};

    ghost Value = { ℕ };

    ghost view = { λ n. n.value };

    ghost invariant = { λ n. n.value ≤ greatest_agent };

    ghost inverse = { λ n. record { value = n } };
}

impl AgentNo {
    /// The place of the last agent that a topology can have.
    pub const MAX: u16 = 63;

    pub fn new(n: u16) -> Option<Self>
        ensures { result ≡ within 0 greatest_agent n }
    {
        if n <= Self::MAX {
            Some(AgentNo { value: n })
        } else {
            None
        }
    }

    pub fn get(self) -> u16
        ensures value { result ≡ self }
        ensures in_range { self ≤ greatest_agent }
    {
        self.value
    }
}

/// The place of a service termination point in the order of declaration.
#[derive(Clone, Copy, Debug, PartialEq, Eq, PartialOrd, Ord)]
pub struct StpNo {
    value: u16,
}

impl Model for StpNo {
    ghost use Rattle.std.specs.Prelude.{ℕ, ◌≤◌};
    ghost use Rattle.nsi_base.specs.Range.{greatest_stp};

    ghost Value = { ℕ };

    ghost view = { λ n. n.value };

    ghost invariant = { λ n. n.value ≤ greatest_stp };

    ghost inverse = { λ n. record { value = n } };
}

impl StpNo {
    /// The place of the last point that a topology can have.
    pub const MAX: u16 = 4_095;

    pub fn new(n: u16) -> Option<Self>
        ensures { result ≡ within 0 greatest_stp n }
    {
        if n <= Self::MAX {
            Some(StpNo { value: n })
        } else {
            None
        }
    }

    pub fn get(self) -> u16
        ensures value { result ≡ self }
        ensures in_range { self ≤ greatest_stp }
    {
        self.value
    }
}

/// The number of a record, in the order in which an agent made them.
#[derive(Clone, Copy, Debug, PartialEq, Eq, PartialOrd, Ord)]
pub struct RecordNo {
    value: u32,
}

impl Model for RecordNo {
    ghost use Rattle.std.specs.Prelude.{ℕ, ◌≤◌};
    ghost use Rattle.nsi_base.specs.Range.{greatest_record};

    ghost Value = { ℕ };

    ghost view = { λ n. n.value };

    ghost invariant = { λ n. n.value ≤ greatest_record };

    ghost inverse = { λ n. record { value = n } };
}

impl RecordNo {
    /// The number of the last record that an agent can make.
    pub const MAX: u32 = 4_194_303;

    pub fn new(n: u32) -> Option<Self>
        ensures { result ≡ within 0 greatest_record n }
    {
        if n <= Self::MAX {
            Some(RecordNo { value: n })
        } else {
            None
        }
    }

    pub fn get(self) -> u32
        ensures value { result ≡ self }
        ensures in_range { self ≤ greatest_record }
    {
        self.value
    }
}

/// For how many seconds a provider holds what it reserved until it is committed (GFD.237, the reservation hold timeout).
#[derive(Clone, Copy, Debug, PartialEq, Eq, PartialOrd, Ord)]
pub struct HoldTime {
    value: u32,
}

impl Model for HoldTime {
    ghost use Rattle.std.specs.Prelude.{ℕ, ◌≤◌};
    ghost use Rattle.nsi_base.specs.Range.{least_hold, greatest_hold};

    ghost Value = { ℕ };

    ghost view = { λ n. n.value };

    ghost invariant = { λ n. (least_hold ≤ n.value) × (n.value ≤ greatest_hold) };

    ghost inverse = { λ n. record { value = n } };
}

impl HoldTime {
    /// A day.
    pub const MAX: u32 = 86_400;

    pub fn new(n: u32) -> Option<Self>
        ensures { result ≡ within least_hold greatest_hold n }
    {
        if 1 <= n && n <= Self::MAX {
            Some(HoldTime { value: n })
        } else {
            None
        }
    }

    pub fn get(self) -> u32
        ensures value { result ≡ self }
        ensures positive { least_hold ≤ self }
        ensures in_range { self ≤ greatest_hold }
    {
        self.value
    }
}
