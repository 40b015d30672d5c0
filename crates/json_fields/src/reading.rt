//! What stands at a key of an object.

ghost use Rattle.std.specs.Prelude.{◌≡◌, ◌≤◌, false, length, option_map, is_some, Some, None, IfOk, IfErr, IfSome, ◌≢◌};
ghost use Rattle.serde_json.specs.Find.{get};
ghost use Rattle.json_fields.specs.Values.{view};
ghost use Rattle.nsi_primitive.specs.Ids.{id_from_text};
ghost use Rattle.nsi_primitive.specs.Printable.{has_further_keys};
ghost use Rattle.json_fields.specs.Keys.{name_of};
ghost use Rattle.json_fields.specs.Faults.{Gives};
ghost use Rattle.json_fields.specs.Fields.{json_of, formed, required, optional, id_from, name_from, text_from, capacity_from, second_from, date_time_from, time_from, version_from, hold_from, count_from, flag_from, kind_from, error_from, plain_error_from, event_from, flow_named, flow_from, directionality_from, empty_list_from};

use crate::fault::LineFault;
use crate::key::Key;
use crate::value::JsonValue;
use crate::value::parsing::parse;
use date_time::read_second;
use json::Scratch;
use nsi_base::{Flow, HoldTime, Mbps, Name, NameFault, Second, Text, Version};
use nsi_primitive::{Directionality, ErrorName, FaultEvent, Id, Kind, read_id};
use std::alloc::Global;

/// Reads JSON (RFC 8259). Of equal keys the last one counts. Nesting over 127, a lone surrogate and a number that no
/// float holds are not JSON here.
pub fn read_json<'a>(
    alloc: Global,
    bytes: &'a [u8],
    scratch: &'a mut Scratch,
) -> Result<JsonValue<'a>, LineFault>
    ensures read { IfOk result (λ v. json_of bytes.now ≡ Some (view v)) }
    ensures refused { IfErr result (λ e.
        e ≢ LineFault.NoMemory → (e ≡ LineFault.NotJson) × (json_of bytes.now ≡ None)) }
{
    match simdutf8::basic::from_utf8(bytes) {
        Ok(text) => parse(alloc, text, scratch),
        Err(_) => Err(LineFault::NotJson),
    }
}

/// What stands at a key, where the value is an object that has it.
pub fn at<'v, 'a>(value: &'v JsonValue<'a>, key: Key) -> Option<&'v JsonValue<'a>>
    ensures { option_map (λ v. view v.now) result ≡ get (name_of key) (view value.now) }
{
    value.get(key.text())
}

fn parse_id(text: &[u8]) -> Option<Id>
    ensures { result ≡ id_from_text text.now }
{
    match read_id(text) {
        Ok(id) => Some(id),
        Err(_) => None,
    }
}

fn id_from(value: &JsonValue<'_>) -> Option<Id>
    ensures { result ≡ id_from (view value.now) }
{
    parse_id(value.as_str()?.as_bytes())
}

pub(crate) fn capacity_from(value: &JsonValue<'_>) -> Option<Mbps>
    ensures { result ≡ capacity_from (view value.now) }
{
    Mbps::new(value.as_u64()?)
}

fn second_from(value: &JsonValue<'_>) -> Option<Second>
    ensures { result ≡ second_from (view value.now) }
{
    Second::new(value.as_u64()?)
}

#[tactic(auto, unfolding(crate::specs::Fields::time_from))]
pub(crate) fn time_from(value: &JsonValue<'_>) -> Option<Second>
    ensures { result ≡ time_from (view value.now) }
{
    match second_from(value) {
        Some(second) => Some(second),
        None => date_time_from(value),
    }
}

fn date_time_from(value: &JsonValue<'_>) -> Option<Second>
    ensures { result ≡ date_time_from (view value.now) }
{
    read_second(value.as_str()?.as_bytes())
}

fn version_from(value: &JsonValue<'_>) -> Option<Version>
    ensures { result ≡ version_from (view value.now) }
{
    let n = value.as_u64()?;
    if n <= u64::from(Version::MAX) {
        Version::new(n as u32)
    } else {
        None
    }
}

fn directionality_from(value: &JsonValue<'_>) -> Option<Directionality>
    ensures { result ≡ directionality_from (view value.now) }
{
    Directionality::named(value.as_str()?.as_bytes())
}

fn hold_from(value: &JsonValue<'_>) -> Option<HoldTime>
    ensures { result ≡ hold_from (view value.now) }
{
    let n = value.as_u64()?;
    if n <= u64::from(HoldTime::MAX) {
        HoldTime::new(n as u32)
    } else {
        None
    }
}

fn kind_from(value: &JsonValue<'_>) -> Option<Kind>
    ensures { result ≡ kind_from (view value.now) }
{
    Kind::named(value.as_str()?.as_bytes())
}

/// The error that a text names.
pub fn error_from(value: &JsonValue<'_>) -> Option<ErrorName>
    ensures { result ≡ error_from (view value.now) }
{
    ErrorName::named(value.as_str()?.as_bytes())
}

/// Whether an error says more than its name.
fn has_further_keys(error: ErrorName) -> bool
    ensures { result ≡ has_further_keys error }
{
    matches!(error, ErrorName::Bandwidth | ErrorName::Child)
}

fn plain_error_from(value: &JsonValue<'_>) -> Option<ErrorName>
    ensures gives { result ≡ plain_error_from (view value.now) }
    ensures plain { IfSome result (λ error. has_further_keys error ≡ false) }
{
    let error = error_from(value)?;
    if has_further_keys(error) {
        None
    } else {
        Some(error)
    }
}

fn event_from(value: &JsonValue<'_>) -> Option<FaultEvent>
    ensures { result ≡ event_from (view value.now) }
{
    FaultEvent::named(value.as_str()?.as_bytes())
}

fn flow_named(name: &[u8]) -> Option<Flow>
    ensures { result ≡ flow_named name.now }
{
    if name == b"in".as_slice() {
        Some(Flow::In)
    } else if name == b"out".as_slice() {
        Some(Flow::Out)
    } else {
        None
    }
}

fn flow_from(value: &JsonValue<'_>) -> Option<Flow>
    ensures { result ≡ flow_from (view value.now) }
{
    flow_named(value.as_str()?.as_bytes())
}

fn is_empty_list(value: &JsonValue<'_>) -> bool
    ensures { result ≡ is_some (empty_list_from (view value.now)) }
{
    match value.as_array() {
        Some(items) => items.is_empty(),
        None => false,
    }
}

fn name_from(alloc: Global, value: &JsonValue<'_>, key: Key) -> Result<Name, LineFault>
    ensures { Gives result (formed key (name_from (view value.now))) }
{
    let Some(text) = value.as_str() else {
        return Err(LineFault::Bad(key));
    };
    match Name::of(alloc, text.as_bytes()) {
        Ok(name) => Ok(name),
        Err(NameFault::NotAName) => Err(LineFault::Bad(key)),
        Err(NameFault::NoMemory) => Err(LineFault::NoMemory),
    }
}

fn text_from(alloc: Global, value: &JsonValue<'_>, key: Key, most: usize) -> Result<Text, LineFault>
    ensures gives { Gives result (formed key (text_from most (view value.now))) }
    ensures short { IfOk result (λ t. length t ≤ most) }
{
    let Some(text) = value.as_str() else {
        return Err(LineFault::Bad(key));
    };
    if text.len() > most {
        return Err(LineFault::Bad(key));
    }
    match Text::of(alloc, text.as_bytes()) {
        Ok(text) => Ok(text),
        Err(_) => Err(LineFault::NoMemory),
    }
}

#[tactic(auto, unfolding(crate::specs::Fields::required))]
pub fn required_id(value: &JsonValue<'_>, key: Key) -> Result<Id, LineFault>
    ensures { Gives result (required id_from key (view value.now)) }
{
    let Some(found) = at(value, key) else {
        return Err(LineFault::Missing(key));
    };
    id_from(found).ok_or(LineFault::Bad(key))
}

#[tactic(auto, unfolding(crate::specs::Fields::required))]
pub fn required_capacity(value: &JsonValue<'_>, key: Key) -> Result<Mbps, LineFault>
    ensures { Gives result (required capacity_from key (view value.now)) }
{
    let Some(found) = at(value, key) else {
        return Err(LineFault::Missing(key));
    };
    capacity_from(found).ok_or(LineFault::Bad(key))
}

#[tactic(auto, unfolding(crate::specs::Fields::required))]
pub fn required_second(value: &JsonValue<'_>, key: Key) -> Result<Second, LineFault>
    ensures { Gives result (required second_from key (view value.now)) }
{
    let Some(found) = at(value, key) else {
        return Err(LineFault::Missing(key));
    };
    second_from(found).ok_or(LineFault::Bad(key))
}

/// When a schedule starts or ends.
#[tactic(auto, unfolding(crate::specs::Fields::required))]
pub fn required_time(value: &JsonValue<'_>, key: Key) -> Result<Second, LineFault>
    ensures { Gives result (required time_from key (view value.now)) }
{
    let Some(found) = at(value, key) else {
        return Err(LineFault::Missing(key));
    };
    time_from(found).ok_or(LineFault::Bad(key))
}

#[tactic(auto, unfolding(crate::specs::Fields::required))]
pub fn required_version(value: &JsonValue<'_>, key: Key) -> Result<Version, LineFault>
    ensures { Gives result (required version_from key (view value.now)) }
{
    let Some(found) = at(value, key) else {
        return Err(LineFault::Missing(key));
    };
    version_from(found).ok_or(LineFault::Bad(key))
}

#[tactic(auto, unfolding(crate::specs::Fields::required))]
pub fn required_hold(value: &JsonValue<'_>, key: Key) -> Result<HoldTime, LineFault>
    ensures { Gives result (required hold_from key (view value.now)) }
{
    let Some(found) = at(value, key) else {
        return Err(LineFault::Missing(key));
    };
    hold_from(found).ok_or(LineFault::Bad(key))
}

/// A number of 64 bits.
#[tactic(auto, unfolding(crate::specs::Fields::required))]
pub fn required_count(value: &JsonValue<'_>, key: Key) -> Result<u64, LineFault>
    ensures { Gives result (required count_from key (view value.now)) }
{
    let Some(found) = at(value, key) else {
        return Err(LineFault::Missing(key));
    };
    found.as_u64().ok_or(LineFault::Bad(key))
}

#[tactic(auto, unfolding(crate::specs::Fields::required))]
pub fn required_flag(value: &JsonValue<'_>, key: Key) -> Result<bool, LineFault>
    ensures { Gives result (required flag_from key (view value.now)) }
{
    let Some(found) = at(value, key) else {
        return Err(LineFault::Missing(key));
    };
    found.as_bool().ok_or(LineFault::Bad(key))
}

#[tactic(auto, unfolding(crate::specs::Fields::required))]
pub fn required_directionality(value: &JsonValue<'_>, key: Key) -> Result<Directionality, LineFault>
    ensures { Gives result (required directionality_from key (view value.now)) }
{
    let Some(found) = at(value, key) else {
        return Err(LineFault::Missing(key));
    };
    directionality_from(found).ok_or(LineFault::Bad(key))
}

#[tactic(auto, unfolding(crate::specs::Fields::required))]
pub fn required_kind(value: &JsonValue<'_>, key: Key) -> Result<Kind, LineFault>
    ensures { Gives result (required kind_from key (view value.now)) }
{
    let Some(found) = at(value, key) else {
        return Err(LineFault::Missing(key));
    };
    kind_from(found).ok_or(LineFault::Bad(key))
}

#[tactic(auto, unfolding(crate::specs::Fields::required))]
pub fn required_error(value: &JsonValue<'_>, key: Key) -> Result<ErrorName, LineFault>
    ensures { Gives result (required error_from key (view value.now)) }
{
    let Some(found) = at(value, key) else {
        return Err(LineFault::Missing(key));
    };
    error_from(found).ok_or(LineFault::Bad(key))
}

/// An error that is given by its name alone.
#[tactic(auto, unfolding(crate::specs::Fields::required))]
pub fn required_plain_error(value: &JsonValue<'_>, key: Key) -> Result<ErrorName, LineFault>
    ensures gives { Gives result (required plain_error_from key (view value.now)) }
    ensures plain { IfOk result (λ error. has_further_keys error ≡ false) }
{
    let Some(found) = at(value, key) else {
        return Err(LineFault::Missing(key));
    };
    plain_error_from(found).ok_or(LineFault::Bad(key))
}

#[tactic(auto, unfolding(crate::specs::Fields::required))]
pub fn required_event(value: &JsonValue<'_>, key: Key) -> Result<FaultEvent, LineFault>
    ensures { Gives result (required event_from key (view value.now)) }
{
    let Some(found) = at(value, key) else {
        return Err(LineFault::Missing(key));
    };
    event_from(found).ok_or(LineFault::Bad(key))
}

#[tactic(auto, unfolding(crate::specs::Fields::required))]
pub fn required_name(alloc: Global, value: &JsonValue<'_>, key: Key) -> Result<Name, LineFault>
    ensures { Gives result (required name_from key (view value.now)) }
{
    match at(value, key) {
        Some(found) => name_from(alloc, found, key),
        None => Err(LineFault::Missing(key)),
    }
}

#[tactic(auto, unfolding(crate::specs::Fields::optional))]
pub fn optional_id(value: &JsonValue<'_>, key: Key) -> Result<Option<Id>, LineFault>
    ensures { Gives result (optional id_from key (view value.now)) }
{
    match at(value, key) {
        None => Ok(None),
        Some(found) => match id_from(found) {
            Some(id) => Ok(Some(id)),
            None => Err(LineFault::Bad(key)),
        },
    }
}

#[tactic(auto, unfolding(crate::specs::Fields::optional))]
pub fn optional_name(
    alloc: Global,
    value: &JsonValue<'_>,
    key: Key,
) -> Result<Option<Name>, LineFault>
    ensures { Gives result (optional name_from key (view value.now)) }
{
    let Some(found) = at(value, key) else {
        return Ok(None);
    };
    let name = name_from(alloc, found, key)?;
    Ok(Some(name))
}

#[tactic(auto, unfolding(crate::specs::Fields::optional))]
pub fn optional_version(value: &JsonValue<'_>, key: Key) -> Result<Option<Version>, LineFault>
    ensures { Gives result (optional version_from key (view value.now)) }
{
    match at(value, key) {
        None => Ok(None),
        Some(found) => match version_from(found) {
            Some(version) => Ok(Some(version)),
            None => Err(LineFault::Bad(key)),
        },
    }
}

/// A number of a notification or a result.
#[tactic(auto, unfolding(crate::specs::Fields::optional))]
pub fn optional_count(value: &JsonValue<'_>, key: Key) -> Result<Option<u64>, LineFault>
    ensures { Gives result (optional count_from key (view value.now)) }
{
    match at(value, key) {
        None => Ok(None),
        Some(found) => match found.as_u64() {
            Some(count) => Ok(Some(count)),
            None => Err(LineFault::Bad(key)),
        },
    }
}

#[tactic(auto, unfolding(crate::specs::Fields::optional))]
pub fn optional_flag(value: &JsonValue<'_>, key: Key) -> Result<Option<bool>, LineFault>
    ensures { Gives result (optional flag_from key (view value.now)) }
{
    match at(value, key) {
        None => Ok(None),
        Some(found) => match found.as_bool() {
            Some(flag) => Ok(Some(flag)),
            None => Err(LineFault::Bad(key)),
        },
    }
}

#[tactic(auto, unfolding(crate::specs::Fields::optional))]
pub fn optional_directionality(
    value: &JsonValue<'_>,
    key: Key,
) -> Result<Option<Directionality>, LineFault>
    ensures { Gives result (optional directionality_from key (view value.now)) }
{
    match at(value, key) {
        None => Ok(None),
        Some(found) => match directionality_from(found) {
            Some(directionality) => Ok(Some(directionality)),
            None => Err(LineFault::Bad(key)),
        },
    }
}

/// A direction of traffic, which is named where a point has one capacity for each.
#[tactic(auto, unfolding(crate::specs::Fields::optional))]
pub fn optional_flow(value: &JsonValue<'_>, key: Key) -> Result<Option<Flow>, LineFault>
    ensures { Gives result (optional flow_from key (view value.now)) }
{
    match at(value, key) {
        None => Ok(None),
        Some(found) => match flow_from(found) {
            Some(flow) => Ok(Some(flow)),
            None => Err(LineFault::Bad(key)),
        },
    }
}

/// The empty list, where the key is there: it has nothing in it to give back.
#[tactic(auto, unfolding(crate::specs::Fields::optional))]
pub fn optional_empty_list(value: &JsonValue<'_>, key: Key) -> Result<Option<()>, LineFault>
    ensures { Gives result (optional empty_list_from key (view value.now)) }
{
    match at(value, key) {
        None => Ok(None),
        Some(found) => {
            if is_empty_list(found) {
                Ok(Some(()))
            } else {
                Err(LineFault::Bad(key))
            }
        }
    }
}

/// A text of at most so many bytes.
#[tactic(auto, unfolding(crate::specs::Fields::optional))]
pub fn optional_text(
    alloc: Global,
    value: &JsonValue<'_>,
    key: Key,
    most: usize,
) -> Result<Option<Text>, LineFault>
    ensures gives { Gives result (optional (text_from most) key (view value.now)) }
    ensures short { IfOk result (λ o. IfSome o (λ t. length t ≤ most)) }
{
    let Some(found) = at(value, key) else {
        return Ok(None);
    };
    let text = text_from(alloc, found, key, most)?;
    Ok(Some(text))
}
