//! What a first reserve asks for.

ghost use Rattle.std.specs.Prelude.{◌≡◌, IfOk, IsSome};
ghost use Rattle.connection_record.specs.Moves.{service_of};
ghost use Rattle.agent_state.specs.State.{name_or};

use nsi_base::copy_text;
use nsi_primitive::{Directionality, ReserveRequest, Service};
use std::alloc::AllocError;

/// The service of a reserve that names both points.
pub fn service_of(request: &ReserveRequest) -> Result<Service, AllocError>
    requires source { IsSome request.now.source }
    requires dest { IsSome request.now.dest }
    ensures { let q = request.now in
        IfOk result (λ s. s ≡ service_of q (name_or q.source) (name_or q.dest)) }
{
    let (Some(source), Some(dest)) = (&request.source, &request.dest) else {
        unreachable!()
    };
    Ok(Service {
        source: source.copy()?,
        dest: dest.copy()?,
        directionality: request
            .directionality
            .unwrap_or(Directionality::Bidirectional),
        symmetric: request.symmetric,
        global: copy_text(&request.global)?,
        description: copy_text(&request.description)?,
    })
}
