//! What is planned for links and disks. A further line is compared with all earlier ones at once.

ghost use Rattle.std.specs.Prelude.{◌≡◌, [], ◌∷◌, ◌++◌, OnOk, false};
ghost use Rattle.nsi_primitive.specs.Kinds.{kind_number};
ghost use Rattle.nsi_script.specs.Plans.{parcel_number, is_planned, is_stopped};
ghost use Rattle.nsi_script.specs.PlanKeys.{parcel_key, call_key};

use crate::script::{PlanLine, StopLine};
use agent_link::ParcelKind;
use indexmap::IndexSet;
use nsi_base::List;
use nsi_primitive::Kind;
use std::alloc::{AllocError, Global};
use std::marker::Model;

/// Which parcel of which link.
#[derive(Clone, Copy, Debug, PartialEq, Eq, Hash)]
pub struct ParcelKey {
    from: u16,
    to: u16,
    parcel: u8,
    nth: u64,
}

/// Which call of which disk.
#[derive(Clone, Copy, Debug, PartialEq, Eq, Hash)]
pub struct CallKey {
    agent: u16,
    call: u64,
}

#[tactic(auto, unfolding(nsi_primitive::specs::Kinds::kind_number))]
fn kind_number(kind: Kind) -> u8
    ensures { result ≡ kind_number kind }
{
    kind as u8
}

fn parcel_number(parcel: ParcelKind) -> u8
    ensures { result ≡ parcel_number parcel }
{
    match parcel {
        ParcelKind::Message(kind) => kind_number(kind),
        ParcelKind::Ack => 28,
    }
}

fn parcel_key(line: &PlanLine) -> ParcelKey
    ensures { result ≡ parcel_key line.now }
{
    ParcelKey {
        from: line.from.get(),
        to: line.to.get(),
        parcel: parcel_number(line.fault.of),
        nth: line.fault.nth,
    }
}

fn call_key(line: &StopLine) -> CallKey
    ensures { result ≡ call_key line.now }
{
    CallKey {
        agent: line.agent.get(),
        call: line.stop.call,
    }
}

/// The lines `lose` and `repeat`, each of another parcel.
#[derive(Drop)]
pub struct PlanLines {
    lines: Vec<PlanLine>,
    keys: IndexSet<ParcelKey>,
}

impl Model for PlanLines {
    ghost use Rattle.std.specs.Prelude.{◌≡◌, List as Sequence, map};
    ghost use Rattle.nsi_script.specs.declared.script.PlanLine.{PlanLine};
    ghost use Rattle.nsi_script.specs.PlanKeys.{parcel_key};

    ghost Value = { Sequence PlanLine };

    ghost view = { λ p. p.lines.items };

    ghost invariant = { λ p. p.keys.keys ≡ map parcel_key p.lines.items };
}

impl PlanLines {
    pub fn new(alloc: Global) -> PlanLines
        ensures { result ≡ [] }
    {
        PlanLines {
            lines: Vec::new(alloc),
            keys: IndexSet::new(alloc),
        }
    }

    /// Whether something is planned for the parcel of the line.
    pub fn has(&self, line: &PlanLine) -> bool
        ensures { result ≡ is_planned self.now line.now }
    {
        self.keys.contains(&parcel_key(line))
    }

    /// One line more.
    pub fn push(&mut self, line: PlanLine) -> Result<(), AllocError>
        requires { is_planned self.old line ≡ false }
        ensures { OnOk result (self.new ≡ self.old ++ line ∷ []) }
    {
        let key = parcel_key(&line);
        self.lines.push(line)?;
        match self.keys.insert(key) {
            Ok(_) => Ok(()),
            Err(_) => {
                let _ = self.lines.pop();
                Err(AllocError)
            }
        }
    }

    pub fn into_list(self) -> List<PlanLine>
        ensures { result ≡ self }
    {
        let PlanLines { lines, keys: _ } = self;
        List::from_items(lines)
    }
}

/// The lines `stop`, each of another call.
#[derive(Drop)]
pub struct StopLines {
    lines: Vec<StopLine>,
    keys: IndexSet<CallKey>,
}

impl Model for StopLines {
    ghost use Rattle.std.specs.Prelude.{◌≡◌, List as Sequence, map};
    ghost use Rattle.nsi_script.specs.declared.script.StopLine.{StopLine};
    ghost use Rattle.nsi_script.specs.PlanKeys.{call_key};

    ghost Value = { Sequence StopLine };

    ghost view = { λ s. s.lines.items };

    ghost invariant = { λ s. s.keys.keys ≡ map call_key s.lines.items };
}

impl StopLines {
    pub fn new(alloc: Global) -> StopLines
        ensures { result ≡ [] }
    {
        StopLines {
            lines: Vec::new(alloc),
            keys: IndexSet::new(alloc),
        }
    }

    /// Whether the disk stops at the call of the line.
    pub fn has(&self, line: &StopLine) -> bool
        ensures { result ≡ is_stopped self.now line.now }
    {
        self.keys.contains(&call_key(line))
    }

    /// One line more.
    pub fn push(&mut self, line: StopLine) -> Result<(), AllocError>
        requires { is_stopped self.old line ≡ false }
        ensures { OnOk result (self.new ≡ self.old ++ line ∷ []) }
    {
        let key = call_key(&line);
        self.lines.push(line)?;
        match self.keys.insert(key) {
            Ok(_) => Ok(()),
            Err(_) => {
                let _ = self.lines.pop();
                Err(AllocError)
            }
        }
    }

    pub fn into_list(self) -> List<StopLine>
        ensures { result ≡ self }
    {
        let StopLines { lines, keys: _ } = self;
        List::from_items(lines)
    }
}
