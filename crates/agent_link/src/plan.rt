//! Which parcels of a link are lost, and which come twice.

ghost use Rattle.std.specs.Prelude.{◌≡◌, [], length, option_copied};
ghost use Rattle.std.specs.List.{find};
ghost use Rattle.nsi_primitive.specs.Kinds.{kind_number};
ghost use Rattle.nsi_primitive.specs.declared.message.Parcel.{Parcel};
ghost use Rattle.agent_link.specs.Plans.{parcel_number};
ghost use Rattle.agent_link.specs.Fates.{parcel_kind, is_due, made_how, fate_of, nearer, passed, copies};

use nsi_base::List;
use nsi_primitive::{Kind, Parcel};
use std::marker::Model;

/// What a parcel is: a message of a kind, or an acknowledgement.
#[derive(Clone, Copy, Debug, PartialEq, Eq)]
pub enum ParcelKind {
    Message(Kind),
    Ack,
}

/// What becomes of a parcel.
#[derive(Clone, Copy, Debug, PartialEq, Eq)]
pub enum How {
    /// It never comes.
    Lose,
    /// It comes twice.
    Repeat,
}

/// What becomes of the parcel with this number, counted from 1 among those of its kind that are put on the link.
#[derive(Clone, Copy, Debug, PartialEq, Eq)]
pub struct LinkFault {
    pub of: ParcelKind,
    pub nth: u64,
    pub how: How,
}

/// What became of a parcel that was put on a link.
#[derive(Clone, Copy, Debug, PartialEq, Eq)]
pub enum Pushed {
    Once,
    /// It never comes.
    Lost,
    /// It comes twice.
    Twice,
}

impl Pushed {
    /// How often it comes.
    pub(crate) fn times(self) -> usize
        ensures { (p : Parcel) → result ≡ length (copies self p) }
    {
        match self {
            Pushed::Once => 1,
            Pushed::Lost => 0,
            Pushed::Twice => 2,
        }
    }
}

impl ParcelKind {
    /// The kind of a parcel.
    pub(crate) fn of(parcel: &Parcel) -> ParcelKind
        ensures { result ≡ parcel_kind parcel.now }
    {
        match parcel {
            Parcel::Message(message) => ParcelKind::Message(message.kind()),
            Parcel::Ack(_) => ParcelKind::Ack,
        }
    }

    /// Each kind of parcel has a number of its own.
    pub fn number(self) -> u8
        ensures { result ≡ parcel_number self }
    {
        match self {
            ParcelKind::Message(kind) => kind_number(kind),
            ParcelKind::Ack => 28,
        }
    }
}

#[tactic(auto, unfolding(nsi_primitive::specs::Kinds::kind_number))]
fn kind_number(kind: Kind) -> u8
    ensures { result ≡ kind_number kind }
{
    kind as u8
}

impl How {
    fn made(self) -> Pushed
        ensures { result ≡ made_how self }
    {
        match self {
            How::Lose => Pushed::Lost,
            How::Repeat => Pushed::Twice,
        }
    }
}

impl LinkFault {
    /// It is of the parcel, where that is the next one.
    fn is_due(&self, parcel: &Parcel) -> bool
        ensures { result ≡ is_due parcel.now self.now }
    {
        ParcelKind::of(parcel).number() == self.of.number() && self.nth == 1
    }

    /// A parcel of the kind with this number was put on the link.
    fn come_nearer(&mut self, kind: u8)
        ensures { (p : Parcel) → parcel_number (parcel_kind p) ≡ kind →
            self.new ≡ nearer p self.old }
    {
        if kind == self.of.number() {
            self.nth = self.nth.saturating_sub(1);
        }
    }
}

/// What is planned for a parcel that is put on the link now.
fn due<'f>(faults: &'f [LinkFault], parcel: &Parcel) -> Option<&'f LinkFault>
    ensures { option_copied result ≡ find (is_due parcel.now) faults.now }
{
    faults.iter().find(|fault| fault.is_due(parcel))
}

/// What is planned for a link, its parcels counted from the next one of each kind on.
#[derive(Drop)]
pub(crate) struct Plan {
    faults: Vec<LinkFault>,
}

impl Model for Plan {
    ghost use Rattle.agent_link.specs.Plans.{Plan};

    ghost Value = { Plan };

    ghost view = { λ p. p.faults.items };
}

impl Plan {
    pub(crate) fn of(faults: List<LinkFault>) -> Plan
        ensures { result ≡ faults }
    {
        Plan {
            faults: faults.into_items(),
        }
    }

    /// What becomes of a parcel that is put on the link now.
    pub(crate) fn fate_of(&self, parcel: &Parcel) -> Pushed
        ensures { result ≡ fate_of parcel.now self.now }
    {
        match due(&self.faults, parcel) {
            Some(fault) => fault.how.made(),
            None => Pushed::Once,
        }
    }

    /// A parcel of this kind was put on the link.
    pub(crate) fn pass(&mut self, kind: ParcelKind)
        ensures { (p : Parcel) → parcel_kind p ≡ kind → self.new ≡ passed p self.old }
    {
        let number = kind.number();
        for fault in self.faults.iter_mut() {
            fault.come_nearer(number);
        }
    }
}
