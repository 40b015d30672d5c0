//! What can be wrong with a topology text.

ghost use Rattle.std.specs.Prelude.{◌≡◌};
ghost use Rattle.stp_topology.specs.Faults.{fault_name};

/// What is wrong with a line.
#[derive(Clone, Copy, Debug, PartialEq, Eq)]
pub enum TopologyFault {
    /// It has no form of a line, or a number out of its range.
    Word,
    /// It names what no earlier line declares, or of the wrong sort.
    Unknown,
    /// It declares or joins what was declared or joined before.
    Twice,
    /// An aggregator would be below itself.
    Cycle,
    /// An aggregator's rank would pass 4.
    TooDeep,
    /// There would be too many agents or STPs.
    Limit,
    /// The topology ends without an agent.
    Empty,
}

impl TopologyFault {
    /// The fault as it is printed.
    pub fn name(self) -> &'static str
        ensures { result.now ≡ fault_name self }
    {
        match self {
            TopologyFault::Word => "Word",
            TopologyFault::Unknown => "Unknown",
            TopologyFault::Twice => "Twice",
            TopologyFault::Cycle => "Cycle",
            TopologyFault::TooDeep => "TooDeep",
            TopologyFault::Limit => "Limit",
            TopologyFault::Empty => "Empty",
        }
    }
}

/// Why a line was not taken.
#[derive(Clone, Copy, Debug, PartialEq, Eq)]
pub enum LineRefusal {
    Fault(TopologyFault),
    NoMemory,
}

/// Why a text was not read. The line of a fault is the first faulty one, counted from 1.
#[derive(Clone, Copy, Debug, PartialEq, Eq)]
pub enum TopologyRefusal {
    Fault { line: u32, fault: TopologyFault },
    NoMemory,
}
