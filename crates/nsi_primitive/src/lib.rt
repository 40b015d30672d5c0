//! The primitives of the Connection Service as plain data, and the ids that they carry.
#![tactic(auto)]

pub mod ask;
mod copies;
pub mod entry;
pub mod id;
pub mod kind;
pub mod message;
pub mod plane;
pub mod state;

pub use ask::{Ask, AskAnswer, NumbersAsked, ReserveAsk, What};
pub use copies::rows::{copy_notices, copy_outcomes, copy_recursive_rows, copy_summary_rows};
pub use entry::{Entry, Event, Happening, Input};
pub use id::{Id, IdFault, agent_and_n, id_of, print_id, read_id};
pub use kind::{Directionality, ErrorName, FaultEvent, Kind};
pub use message::{
    Body, Cause, Criteria, DeliveryTimeout, Exception, FaultNotice, Header, HoldTimeout, Identity,
    Message, Notice, NumberRange, Outcome, Parcel, PlaneNotice, RecursiveRow, ReserveConfirmation,
    ReserveRequest, Service, SummaryRow,
};
pub use plane::Plane;
pub use state::{Lsm, Machine, Psm, Rsm, Side};
