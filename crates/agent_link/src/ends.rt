//! The two ends of a link.

ghost use Rattle.std.specs.Prelude.{◌≡◌, ◌==◌, ◌≤◌, ◌<◌, ◌+◌, ◌↔◌, [], ◌∷◌, ◌++◌, true, length, IfOk, IfErr, OnOk, OnErr, IsErrOf, IfSome};
ghost use Rattle.nsi_primitive.specs.Printable.{IsPrintableParcel};
ghost use Rattle.agent_link.specs.Fates.{fate_of, copies};
ghost use Rattle.agent_link.specs.Link.{most_parcels, is_full, pushed, next_of, taken, ends, met, handed_back, unboxed};

use crate::plan::{LinkFault, ParcelKind, Plan, Pushed};
use crate::spelled::Spelled;
use nsi_base::List;
use nsi_primitive::Parcel;
use rtrb::{Consumer, Producer, RingBuffer};
use std::alloc::{AllocError, Global};
use std::marker::Model;

/// So many parcels go through a link between two meetings.
const MOST_PARCELS: usize = 1024;

/// A ring has room for what is known at the one end beside what was let through at the other since.
const SLOTS: usize = 2048;

/// The end that parcels are put on. It counts those that it let through since the ends met.
#[derive(Drop)]
pub struct Outgoing {
    ring: Producer<Box<Parcel>, Global, Spelled>,
    count: usize,
    plan: Plan,
}

impl Model for Outgoing {
    ghost use Rattle.std.specs.Prelude.{◌≡◌, ◌≤◌, ◌+◌, length};
    ghost use Rattle.rtrb.specs.Ring.{sent, known_free, producer_capacity};
    ghost use Rattle.agent_link.specs.Link.{OutHalf, most_parcels};
    ghost use Rattle.agent_link.specs.Ring.{out_half, slots};

    ghost Value = { OutHalf };

    ghost view = { λ o. out_half o.ring o.count o.plan };

    ghost invariant = { λ o. (o.count ≤ length (sent o.ring))
        × (o.count ≤ most_parcels)
        × (most_parcels ≤ known_free o.ring + o.count)
        × (producer_capacity o.ring ≡ slots) };
}

/// The end that parcels are taken from. It looks at the ring in a meeting alone, so what it knows doesn't hang on when others push.
#[derive(Drop)]
pub struct Incoming {
    ring: Consumer<Box<Parcel>, Global, Spelled>,
}

impl Model for Incoming {
    ghost use Rattle.agent_link.specs.Link.{Half};
    ghost use Rattle.agent_link.specs.Ring.{in_half};

    ghost Value = { Half };

    ghost view = { λ i. in_half i.ring };
}

/// Why a parcel wasn't put on a link: it is handed back.
#[derive(Debug, Drop)]
pub enum PushFault {
    /// The link takes no more before its ends meet.
    Full(Parcel),
    NoMemory(Parcel),
}

/// A link, of whose parcels the planned ones are lost or come twice.
pub fn link(alloc: Global, plan: List<LinkFault>) -> Result<(Outgoing, Incoming), AllocError>
    ensures empty { IfOk result (λ r. (r.0.parcels ≡ []) × (r.1.parcels ≡ [])) }
    ensures plan { IfOk result (λ r. r.0.plan ≡ plan) }
    ensures pair { IfOk result (λ r. r.0.wire ≡ r.1.wire) }
{
    let (producer, consumer) = RingBuffer::with_protocol::<Global, Spelled>(alloc, SLOTS)?;
    Ok((
        Outgoing {
            ring: producer,
            count: 0,
            plan: Plan::of(plan),
        },
        Incoming { ring: consumer },
    ))
}

impl Outgoing {
    /// Begins to let parcels through in a round.
    pub fn begin_round(&mut self)
        requires { self.old.parcels ≡ [] }
        ensures { self.new ≡ self.old }
    {}

    /// Whether nothing was let through since the ends met.
    pub fn is_empty(&self) -> bool
        ensures { result ≡ (length self.now.parcels == 0) }
    {
        self.count == 0
    }

    /// Puts a parcel on the link, or hands it back. What is refused isn't counted.
    pub fn push(&mut self, alloc: Global, parcel: Parcel) -> Result<Pushed, PushFault>
        requires printable { IsPrintableParcel parcel }
        ensures ok { OnOk result (self.new ≡ pushed parcel self.old) }
        ensures made { IfOk result (λ made. made ≡ fate_of parcel self.old.plan) }
        ensures full { IsErrOf result (PushFault.Full parcel)
            ↔ is_full parcel self.old.plan self.old.parcels ≡ true }
        ensures back { IfErr result (λ fault. handed_back fault ≡ parcel) }
        ensures err { OnErr result (self.new ≡ self.old) }
    {
        let kind = ParcelKind::of(&parcel);
        let made = self.plan.fate_of(&parcel);
        if made.times() > MOST_PARCELS - self.count {
            return Err(PushFault::Full(parcel));
        }
        self.let_through(alloc, made, parcel)?;
        self.plan.pass(kind);
        Ok(made)
    }

    /// Lets through what comes of a parcel, for which there is room.
    fn let_through(&mut self, alloc: Global, made: Pushed, parcel: Parcel) -> Result<(), PushFault>
        requires printable { IsPrintableParcel parcel }
        requires room { length self.old.parcels + length (copies made parcel) ≤ most_parcels }
        ensures ok { OnOk result
            (self.new ≡ record self.old { parcels = self.old.parcels ++ copies made parcel }) }
        ensures memory { IfErr result (λ fault. fault ≡ PushFault.NoMemory parcel) }
        ensures err { OnErr result (self.new ≡ self.old) }
    {
        match made {
            Pushed::Lost => {
                drop(parcel);
                Ok(())
            }
            Pushed::Once => {
                let boxed = boxed(alloc, parcel)?;
                self.put(boxed);
                Ok(())
            }
            Pushed::Twice => {
                let Ok(again) = boxed_copy(alloc, &parcel) else {
                    return Err(PushFault::NoMemory(parcel));
                };
                let boxed = boxed(alloc, parcel)?;
                self.put(boxed);
                self.put(again);
                Ok(())
            }
        }
    }

    /// Lets one parcel through, for which there is room.
    fn put(&mut self, boxed: Box<Parcel>)
        requires printable { IsPrintableParcel (unboxed boxed) }
        requires room { length self.old.parcels < most_parcels }
        ensures { self.new ≡ record self.old { parcels = self.old.parcels ++ unboxed boxed ∷ [] } }
    {
        self.ring.push_reserved(boxed);
        self.count += 1;
    }
}

fn boxed(alloc: Global, parcel: Parcel) -> Result<Box<Parcel>, PushFault>
    ensures ok { IfOk result (λ boxed. unboxed boxed ≡ parcel) }
    ensures err { IfErr result (λ fault. fault ≡ PushFault.NoMemory parcel) }
{
    match Box::new(alloc, parcel) {
        Ok(boxed) => Ok(boxed),
        Err(refused) => Err(PushFault::NoMemory(refused.value)),
    }
}

fn boxed_copy(alloc: Global, parcel: &Parcel) -> Result<Box<Parcel>, AllocError>
    ensures { IfOk result (λ boxed. unboxed boxed ≡ parcel.now) }
{
    let parcel = parcel.copy()?;
    match Box::new(alloc, parcel) {
        Ok(boxed) => Ok(boxed),
        Err(_) => Err(AllocError),
    }
}

impl Incoming {
    /// Fixes what is known.
    pub fn begin_round(&mut self)
        ensures { self.new ≡ self.old }
    {}

    /// The next parcel that is known.
    pub fn take(&mut self) -> Option<Parcel>
        ensures next { result ≡ next_of self.old.parcels }
        ensures rest { self.new ≡ record self.old { parcels = taken self.old.parcels } }
        ensures printable { IfSome result IsPrintableParcel }
    {
        if self.ring.cached_slots() == 0 {
            return None;
        }
        let boxed = self.ring.pop_known();
        Some(Box::into_inner(boxed))
    }

    /// Lets go of what is known.
    pub fn clear(&mut self)
        ensures { self.new ≡ record self.old { parcels = [] } }
    {
        let known = self.ring.cached_slots();
        for _k in 0..known {
            drop(self.take());
        }
    }

    pub fn is_empty(&self) -> bool
        ensures { result ≡ (length self.now.parcels == 0) }
    {
        self.ring.cached_slots() == 0
    }
}

/// What the one end let through since the two met is what the other one knows. It takes no memory. Both ends look at the ring, the
/// outgoing one first: the other way round what is known could grow once it is told.
pub fn meet(out: &mut Outgoing, incoming: &mut Incoming)
    requires pair { out.old.wire ≡ incoming.old.wire }
    requires taken { incoming.old.parcels ≡ [] }
    ensures met { ends out.new incoming.new ≡ met (ends out.old incoming.old) }
    ensures given { incoming.new.parcels ≡ out.old.parcels }
    ensures shut { out.new.parcels ≡ [] }
    ensures plan { out.new.plan ≡ out.old.plan }
    ensures pair { out.new.wire ≡ incoming.new.wire }
{
    out.ring.slots_beside(&mut incoming.ring);
    incoming.ring.slots_beside(&mut out.ring);
    out.count = 0;
}
