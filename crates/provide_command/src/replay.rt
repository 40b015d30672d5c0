//! A provider takes the entries of a journal again.

ghost use Rattle.std.specs.Prelude.{◌≡◌, ◌≤◌, ◌<◌, ◌+◌, length, All, OnOk};
ghost use Rattle.nsi_primitive.specs.Printable.{IsPrintableEntry};
ghost use Rattle.provider_agent.specs.Setting.{own_stp};
ghost use Rattle.provider_agent.specs.Runs.{after_all};
ghost use Rattle.agent_state.specs.Entries.{is_on_time};
ghost use Rattle.provider_agent.specs.Steps.{after, may_take, is_for_provider};

use nsi_base::Second;
use nsi_primitive::{Entry, Input};
use provider_agent::Provider;
use std::alloc::{AllocError, Global};
use stp_topology::Topology;

/// Whether an input is a provider's: asks are a requester's.
fn is_for_provider(input: &Input) -> bool
    ensures { result ≡ is_for_provider input.now }
{
    !matches!(input, Input::Ask { .. })
}

/// Whether an input may come at a second, where the clock stands at another.
fn is_on_time(input: &Input, second: Second, now: Second) -> bool
    ensures { result ≡ is_on_time input.now second now }
{
    match input {
        Input::Tick => now <= second,
        _ => second == now,
    }
}

/// Whether a provider takes an entry now.
fn may_take(provider: &Provider, entry: &Entry) -> bool
    ensures { result ≡ may_take provider.now.state entry.now }
{
    provider.taken() < 4_194_304
        && is_for_provider(&entry.input)
        && is_on_time(&entry.input, entry.second, provider.now())
}

/// Takes an entry of a journal. One that no provider takes changes nothing.
#[tactic(auto, unfolding(provider_agent::specs::Steps::after))]
fn replay_one(
    alloc: Global,
    provider: &mut Provider,
    topology: &Topology,
    entry: &Entry,
) -> Result<(), AllocError>
    requires { IsPrintableEntry entry.now }
    ensures { let p = provider.old in
        let then = after p.setting (own_stp topology.now p.setting.number) p.state entry.now in
        OnOk result (provider.new ≡ record p { state = then.state }) }
{
    if may_take(provider, entry) {
        provider.next(alloc, topology, entry)?;
    }
    Ok(())
}

/// Takes the entries of a journal, one after another; what they cause isn't said again.
pub(crate) fn replay(
    alloc: Global,
    provider: &mut Provider,
    topology: &Topology,
    entries: &[Entry],
) -> Result<(), AllocError>
    requires { All IsPrintableEntry entries.now }
    ensures state { let p = provider.old in
        let then = after_all p.setting
        (own_stp topology.now p.setting.number) p.state entries.now in
        OnOk result (provider.new ≡ record p { state = then.state }) }
    ensures taken { OnOk result
        (provider.new.state.taken ≤ provider.old.state.taken + length entries.now) }
{
    for entry in entries {
        replay_one(alloc, provider, topology, entry)?;
    }
    Ok(())
}
