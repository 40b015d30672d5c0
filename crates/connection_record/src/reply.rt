//! What is said of a record.

ghost use Rattle.std.specs.Prelude.{◌≡◌, IfOk};
ghost use Rattle.connection_record.specs.Replies.{confirmation, id_or};

use nsi_base::copy_text;
use nsi_primitive::{Criteria, Id, ReserveConfirmation, Service};
use std::alloc::AllocError;

pub fn id_or(request: Option<Id>) -> Id
    ensures { result ≡ id_or request }
{
    request.unwrap_or(Id::nil())
}

/// What is confirmed of a connection: what is held, and its service.
pub fn confirmation(
    id: Id,
    service: &Service,
    criteria: Criteria,
) -> Result<ReserveConfirmation, AllocError>
    ensures { IfOk result (λ c. c ≡ confirmation id service.now criteria) }
{
    let description = copy_text(&service.description)?;
    let dest = service.dest.copy()?;
    let global = copy_text(&service.global)?;
    let source = service.source.copy()?;
    Ok(ReserveConfirmation {
        capacity: criteria.capacity,
        connection: id,
        description,
        dest,
        directionality: service.directionality,
        end: criteria.interval.end(),
        global,
        source,
        start: criteria.interval.start(),
        symmetric: service.symmetric,
        version: criteria.version,
    })
}
