//! What can be wrong with a script.

ghost use Rattle.std.specs.Prelude.{◌≡◌};
ghost use Rattle.nsi_script.specs.Faults.{fault_name, demand, Gives};

use std::alloc::AllocError;

/// What is wrong with a line. Where a line has several faults, the first in this order is told.
#[derive(Clone, Copy, Debug, PartialEq, Eq)]
pub enum ScriptFault {
    /// It has no form of a line, or a number out of its range; or it plans what an earlier line plans, or
    /// stands behind the first `at` and plans something.
    Word,
    /// A name isn't that of an agent of the sort, or two agents have no link.
    Agent,
    /// The second is before the one of the last group, or there is no group yet.
    Time,
    /// It is about a label for which that requester has reserved nothing on an earlier line.
    Label,
    /// There would be too many asks.
    Limit,
}

impl ScriptFault {
    /// The fault as it is printed.
    pub fn name(self) -> &'static str
        ensures { result.now ≡ fault_name self }
    {
        match self {
            ScriptFault::Word => "Word",
            ScriptFault::Agent => "Agent",
            ScriptFault::Time => "Time",
            ScriptFault::Label => "Label",
            ScriptFault::Limit => "Limit",
        }
    }
}

/// Why a line was not taken.
#[derive(Clone, Copy, Debug, PartialEq, Eq)]
pub enum LineRefusal {
    Fault(ScriptFault),
    NoMemory,
}

impl From<AllocError> for LineRefusal {
    ghost use Rattle.nsi_script.specs.declared.fault.LineRefusal.TheVariants.{NoMemory};

    ghost from_gives = { λ _ e. e ≡ NoMemory };

    fn from(_e: AllocError) -> LineRefusal {
        LineRefusal::NoMemory
    }
}

/// Why a text was not read. The line of a fault is the first faulty one.
#[derive(Clone, Copy, Debug, PartialEq, Eq)]
pub enum ScriptRefusal {
    Fault { line: u32, fault: ScriptFault },
    NoMemory,
}

/// Goes on only where something holds.
pub fn demand(holds: bool, fault: ScriptFault) -> Result<(), LineRefusal>
    ensures { Gives (λ _. holds) result (demand holds fault) }
{
    if holds {
        Ok(())
    } else {
        Err(LineRefusal::Fault(fault))
    }
}
