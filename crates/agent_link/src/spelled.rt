//! What goes through a ring.

use nsi_primitive::Parcel;
use rtrb::Protocol;

/// Only parcels that have a spelling are let through.
#[derive(Clone, Copy)]
pub(crate) struct Spelled;

impl Protocol<Box<Parcel>> for Spelled {
    ghost use Rattle.nsi_primitive.specs.Printable.{IsPrintableParcel};
    ghost use Rattle.agent_link.specs.Link.{unboxed};

    ghost allows = { λ before boxed. IsPrintableParcel (unboxed boxed) };
}
