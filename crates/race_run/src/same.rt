//! Whether two events are one, and where two lists differ first.

ghost use Rattle.std.specs.Prelude.{◌≡◌, ◌≢◌, ◌≤◌, ◌<◌, true, false, length, take, All, MatchBool, MatchOption, IfOk, IfSome, None, slice_get, bytes_eq};
ghost use Rattle.nsi_primitive.specs.Printable.{IsPrintableEntry};
ghost use Rattle.stp_topology.specs.declared.network.Network.{Network};
ghost use Rattle.race_run.specs.Compared.{IsWritten, AreWritten, IsFront, IsFirst, IsTold, IsOfNetwork, event_at, AllStand};

use crate::item::{Difference, Item};
use journal_entry::write_entry;
use nsi_primitive::{Entry, Event, Happening};
use std::alloc::{AllocError, Global};
use stp_topology::Topology;

fn same_bytes(left: &[u8], right: &[u8]) -> bool
    ensures { result ≡ bytes_eq left.now right.now }
{
    left == right
}

/// Whether two entries are one, by their bytes.
fn is_same_entry(alloc: Global, one: &Entry, other: &Entry) -> Result<bool, AllocError>
    requires one { IsPrintableEntry one.now }
    requires other { IsPrintableEntry other.now }
    ensures { IfOk result (λ same. MatchBool same (one.now ≡ other.now) (one.now ≢ other.now)) }
{
    let left = write_entry(alloc, one)?;
    let right = write_entry(alloc, other)?;
    let same = same_bytes(&left, &right);
    Ok(same)
}

fn is_same_happening(alloc: Global, one: &Happening, other: &Happening) -> Result<bool, AllocError>
    requires one { IsWritten one.now }
    requires other { IsWritten other.now }
    ensures { IfOk result (λ same. MatchBool same (one.now ≡ other.now) (one.now ≢ other.now)) }
{
    match (one, other) {
        (
            Happening::Entry { entry, answer },
            Happening::Entry {
                entry: own,
                answer: given,
            },
        ) => {
            if answer != given {
                return Ok(false);
            }
            is_same_entry(alloc, entry, own)
        }
        (Happening::Sync { count }, Happening::Sync { count: own }) => Ok(count == own),
        (Happening::Restart { count }, Happening::Restart { count: own }) => Ok(count == own),
        _ => Ok(false),
    }
}

fn is_same(alloc: Global, one: &Item, other: &Item) -> Result<bool, AllocError>
    requires one { IsWritten one.now.event.what }
    requires other { IsWritten other.now.event.what }
    ensures { IfOk result (λ same. MatchBool same (one.now ≡ other.now) (one.now ≢ other.now)) }
{
    if one.place != other.place || one.event.agent != other.event.agent {
        return Ok(false);
    }
    is_same_happening(alloc, &one.event.what, &other.event.what)
}

/// Whether both have an item at the place, and these are one.
fn is_same_at(
    alloc: Global,
    kept: &[Item],
    found: &[Item],
    place: usize,
) -> Result<bool, AllocError>
    requires within { place < length kept.now }
    requires kept { AreWritten kept.now }
    requires found { AreWritten found.now }
    ensures within { IfOk result (λ same. same ≡ true → place < length found.now) }
    ensures same { IfOk result (λ same.
        same ≡ true → slice_get kept.now place ≡ slice_get found.now place) }
    ensures differs { IfOk result (λ same. same ≡ false →
        place < length found.now → slice_get kept.now place ≢ slice_get found.now place) }
{
    if place >= found.len() {
        return Ok(false);
    }
    is_same(alloc, &kept[place], &found[place])
}

/// How many first items two lists have in common.
fn common_front(alloc: Global, kept: &[Item], found: &[Item]) -> Result<usize, AllocError>
    requires kept { AreWritten kept.now }
    requires found { AreWritten found.now }
    ensures { IfOk result (IsFront kept.now found.now) }
{
    for place in 0..kept.len() {
        let same = is_same_at(alloc, kept, found, place)?;
        if !same {
            return Ok(place);
        }
    }
    Ok(kept.len())
}

/// The event of an item, where it stands at the place.
fn event_at(place: u64, items: &[Item], n: usize) -> Result<Option<Event>, AllocError>
    ensures { IfOk result (λ event. event ≡ event_at place (slice_get items.now n)) }
{
    match items.get(n) {
        Some(item) => {
            if item.place == place {
                Ok(Some(item.event.copy()?))
            } else {
                Ok(None)
            }
        }
        None => Ok(None),
    }
}

/// What is told where two lists go apart.
fn apart(kept: &[Item], found: &[Item], n: usize) -> Result<Option<Difference>, AllocError>
    ensures { IfOk result (λ o. MatchOption o
        ((slice_get kept.now n ≡ None) × (slice_get found.now n ≡ None))
        (IsTold (slice_get kept.now n) (slice_get found.now n))) }
{
    match (kept.get(n), found.get(n)) {
        (None, None) => Ok(None),
        (Some(k), None) => Ok(Some(Difference {
            place: k.place,
            kept: Some(k.event.copy()?),
            found: None,
        })),
        (_, Some(f)) => {
            let kept = event_at(f.place, kept, n)?;
            Ok(Some(Difference {
                place: f.place,
                kept,
                found: Some(f.event.copy()?),
            }))
        }
    }
}

/// Where two lists differ first.
pub fn compare(
    alloc: Global,
    kept: &[Item],
    found: &[Item],
) -> Result<Option<Difference>, AllocError>
    requires kept { AreWritten kept.now }
    requires found { AreWritten found.now }
    ensures compared { IfOk result (λ o.
        MatchOption o (kept.now ≡ found.now) (IsFirst kept.now found.now)) }
    ensures told { (t : Network) → AllStand t kept.now → AllStand t found.now →
        IfOk result (λ o. IfSome o (IsOfNetwork t)) }
{
    let front = common_front(alloc, kept, found)?;
    let told = apart(kept, found, front)?;
    Ok(told)
}
