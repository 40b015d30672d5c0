//! Copies of what owns memory.

ghost use Rattle.std.specs.Prelude.{◌≡◌, IfOk};

mod bodies;
mod entries;
pub mod rows;

use crate::message::{
    Cause, Exception, FaultNotice, Header, HoldTimeout, Identity, Message, Parcel,
    ReserveConfirmation, ReserveRequest, Service,
};
use nsi_base::{copy_name, copy_text};
use std::alloc::AllocError;

impl Header {
    pub fn copy(&self) -> Result<Header, AllocError>
        ensures { IfOk result (λ h. h ≡ self.now) }
    {
        Ok(Header {
            correlation: self.correlation,
            requester: self.requester.copy()?,
            provider: self.provider.copy()?,
        })
    }
}

impl Identity {
    pub fn copy(&self) -> Result<Identity, AllocError>
        ensures { IfOk result (λ i. i ≡ self.now) }
    {
        Ok(Identity {
            requester: self.requester.copy()?,
            provider: self.provider.copy()?,
            correlation: self.correlation,
            kind: self.kind,
        })
    }
}

impl Service {
    pub fn copy(&self) -> Result<Service, AllocError>
        ensures { IfOk result (λ s. s ≡ self.now) }
    {
        Ok(Service {
            source: self.source.copy()?,
            dest: self.dest.copy()?,
            directionality: self.directionality,
            symmetric: self.symmetric,
            global: copy_text(&self.global)?,
            description: copy_text(&self.description)?,
        })
    }
}

impl Cause {
    pub fn copy(&self) -> Result<Cause, AllocError>
        ensures { IfOk result (λ c. c ≡ self.now) }
    {
        match self {
            Cause::Plain(error) => Ok(Cause::Plain(*error)),
            Cause::Bandwidth {
                stp,
                flow,
                second,
                load,
                capacity,
            } => Ok(Cause::Bandwidth {
                stp: stp.copy()?,
                flow: *flow,
                second: *second,
                load: *load,
                capacity: *capacity,
            }),
            Cause::Child { child, error } => Ok(Cause::Child {
                child: child.copy()?,
                error: *error,
            }),
        }
    }
}

impl Exception {
    pub fn copy(&self) -> Result<Exception, AllocError>
        ensures { IfOk result (λ e. e ≡ self.now) }
    {
        Ok(Exception {
            nsa: self.nsa.copy()?,
            cause: self.cause.copy()?,
        })
    }
}

impl ReserveRequest {
    pub fn copy(&self) -> Result<ReserveRequest, AllocError>
        ensures { IfOk result (λ r. r ≡ self.now) }
    {
        Ok(ReserveRequest {
            capacity: self.capacity,
            connection: self.connection,
            description: copy_text(&self.description)?,
            dest: copy_name(&self.dest)?,
            directionality: self.directionality,
            end: self.end,
            global: copy_text(&self.global)?,
            source: copy_name(&self.source)?,
            start: self.start,
            symmetric: self.symmetric,
            version: self.version,
        })
    }
}

impl ReserveConfirmation {
    pub fn copy(&self) -> Result<ReserveConfirmation, AllocError>
        ensures { IfOk result (λ r. r ≡ self.now) }
    {
        Ok(ReserveConfirmation {
            capacity: self.capacity,
            connection: self.connection,
            description: copy_text(&self.description)?,
            dest: self.dest.copy()?,
            directionality: self.directionality,
            end: self.end,
            global: copy_text(&self.global)?,
            source: self.source.copy()?,
            start: self.start,
            symmetric: self.symmetric,
            version: self.version,
        })
    }
}

impl HoldTimeout {
    pub fn copy(&self) -> Result<HoldTimeout, AllocError>
        ensures { IfOk result (λ t. t ≡ self.now) }
    {
        Ok(HoldTimeout {
            connection: self.connection,
            notification: self.notification,
            originating_connection: self.originating_connection,
            originating_nsa: self.originating_nsa.copy()?,
            time: self.time,
            value: self.value,
        })
    }
}

impl FaultNotice {
    pub fn copy(&self) -> Result<FaultNotice, AllocError>
        ensures { IfOk result (λ n. n ≡ self.now) }
    {
        Ok(FaultNotice {
            connection: self.connection,
            event: self.event,
            notification: self.notification,
            originating_connection: self.originating_connection,
            originating_nsa: self.originating_nsa.copy()?,
            time: self.time,
        })
    }
}

impl Message {
    pub fn copy(&self) -> Result<Message, AllocError>
        ensures { IfOk result (λ m. m ≡ self.now) }
    {
        Ok(Message {
            header: self.header.copy()?,
            body: self.body.copy()?,
        })
    }
}

impl Parcel {
    pub fn copy(&self) -> Result<Parcel, AllocError>
        ensures { IfOk result (λ p. p ≡ self.now) }
    {
        match self {
            Parcel::Message(message) => Ok(Parcel::Message(message.copy()?)),
            Parcel::Ack(identity) => Ok(Parcel::Ack(identity.copy()?)),
        }
    }
}
