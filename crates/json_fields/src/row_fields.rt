//! What stands at a key of a row, and the items of a list of rows.

ghost use Rattle.std.specs.Prelude.{◌≡◌, Ok, IfOk, IfErr};
ghost use Rattle.serde_json.specs.Find.{as_array};
ghost use Rattle.json_fields.specs.Values.{view, items_view};
ghost use Rattle.json_fields.specs.Faults.{Fails, Gives};
ghost use Rattle.json_fields.specs.Fields.{required, optional, capacity_from, time_from};
ghost use Rattle.json_fields.specs.RowFields.{rsm_from, psm_from, lsm_from, depth_from, list_fault};

use crate::fault::LineFault;
use crate::key::Key;
use crate::reading::{at, capacity_from, time_from};
use crate::value::JsonValue;
use nsi_base::{Mbps, Second};
use nsi_primitive::{Lsm, Psm, Rsm};

/// The items of a list, in their order.
#[tactic(auto, unfolding(crate::specs::Fields::required))]
pub fn required_items<'v, 'a>(
    value: &'v JsonValue<'a>,
    key: Key,
) -> Result<&'v [JsonValue<'a>], LineFault>
    ensures found { IfOk result (λ items.
        required as_array key (view value.now) ≡ Ok (items_view items.now)) }
    ensures refused { IfErr result (λ fault. Fails fault (required as_array key (view value.now))) }
{
    let Some(found) = at(value, key) else {
        return Err(LineFault::Missing(key));
    };
    match found.as_array() {
        Some(items) => Ok(items),
        None => Err(LineFault::Bad(key)),
    }
}

/// The fault of a list by the fault of one of its rows.
pub fn list_fault(key: Key, fault: LineFault) -> LineFault
    ensures { result ≡ list_fault key fault }
{
    match fault {
        LineFault::NoMemory => LineFault::NoMemory,
        _ => LineFault::Bad(key),
    }
}

fn rsm_from(value: &JsonValue<'_>) -> Option<Rsm>
    ensures { result ≡ rsm_from (view value.now) }
{
    Rsm::named(value.as_str()?.as_bytes())
}

fn psm_from(value: &JsonValue<'_>) -> Option<Psm>
    ensures { result ≡ psm_from (view value.now) }
{
    Psm::named(value.as_str()?.as_bytes())
}

fn lsm_from(value: &JsonValue<'_>) -> Option<Lsm>
    ensures { result ≡ lsm_from (view value.now) }
{
    Lsm::named(value.as_str()?.as_bytes())
}

fn depth_from(value: &JsonValue<'_>) -> Option<u8>
    ensures { result ≡ depth_from (view value.now) }
{
    let depth = value.as_u64()?;
    if depth <= u64::from(u8::MAX) {
        Some(depth as u8)
    } else {
        None
    }
}

/// A state of the reservation machine.
#[tactic(auto, unfolding(crate::specs::Fields::required))]
pub fn required_rsm(value: &JsonValue<'_>, key: Key) -> Result<Rsm, LineFault>
    ensures { Gives result (required rsm_from key (view value.now)) }
{
    let Some(found) = at(value, key) else {
        return Err(LineFault::Missing(key));
    };
    rsm_from(found).ok_or(LineFault::Bad(key))
}

/// A state of the provision machine.
#[tactic(auto, unfolding(crate::specs::Fields::required))]
pub fn required_psm(value: &JsonValue<'_>, key: Key) -> Result<Psm, LineFault>
    ensures { Gives result (required psm_from key (view value.now)) }
{
    let Some(found) = at(value, key) else {
        return Err(LineFault::Missing(key));
    };
    psm_from(found).ok_or(LineFault::Bad(key))
}

/// A state of the lifecycle machine.
#[tactic(auto, unfolding(crate::specs::Fields::required))]
pub fn required_lsm(value: &JsonValue<'_>, key: Key) -> Result<Lsm, LineFault>
    ensures { Gives result (required lsm_from key (view value.now)) }
{
    let Some(found) = at(value, key) else {
        return Err(LineFault::Missing(key));
    };
    lsm_from(found).ok_or(LineFault::Bad(key))
}

/// How far below the agent that answers.
#[tactic(auto, unfolding(crate::specs::Fields::required))]
pub fn required_depth(value: &JsonValue<'_>, key: Key) -> Result<u8, LineFault>
    ensures { Gives result (required depth_from key (view value.now)) }
{
    let Some(found) = at(value, key) else {
        return Err(LineFault::Missing(key));
    };
    depth_from(found).ok_or(LineFault::Bad(key))
}

#[tactic(auto, unfolding(crate::specs::Fields::optional))]
pub fn optional_capacity(value: &JsonValue<'_>, key: Key) -> Result<Option<Mbps>, LineFault>
    ensures { Gives result (optional capacity_from key (view value.now)) }
{
    match at(value, key) {
        None => Ok(None),
        Some(found) => match capacity_from(found) {
            Some(capacity) => Ok(Some(capacity)),
            None => Err(LineFault::Bad(key)),
        },
    }
}

/// When a schedule starts or ends.
#[tactic(auto, unfolding(crate::specs::Fields::optional))]
pub fn optional_time(value: &JsonValue<'_>, key: Key) -> Result<Option<Second>, LineFault>
    ensures { Gives result (optional time_from key (view value.now)) }
{
    match at(value, key) {
        None => Ok(None),
        Some(found) => match time_from(found) {
            Some(time) => Ok(Some(time)),
            None => Err(LineFault::Bad(key)),
        },
    }
}
