//! The header of a message.

ghost use Rattle.json_fields.specs.Values.{view};
ghost use Rattle.json_fields.specs.Faults.{Gives};
ghost use Rattle.json_primitives.specs.Headers.{header_from};

use json_fields::reading::required_name;
use json_fields::{JsonValue, Key, LineFault};
use nsi_primitive::{Header, Id};
use std::alloc::Global;

/// The two agents, whose keys follow each other in byte order, under a correlation that was read before.
#[tactic(auto, unfolding(crate::specs::Headers::header_from))]
pub fn header_from(
    alloc: Global,
    value: &JsonValue<'_>,
    correlation: Id,
) -> Result<Header, LineFault>
    ensures { Gives result (header_from correlation (view value.now)) }
{
    let provider = required_name(alloc, value, Key::ProviderNsa)?;
    let requester = required_name(alloc, value, Key::RequesterNsa)?;
    Ok(Header {
        correlation,
        requester,
        provider,
    })
}
