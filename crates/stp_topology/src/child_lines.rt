//! Which agents stand below which, of at most 64.

ghost use Rattle.std.specs.Prelude.{◌≡◌, ℕ, ◌==◌, ◌&&◌, Bool, false, slice_index_or};
ghost use Rattle.std.specs.List.{list_any};
ghost use Rattle.stp_topology.specs.Lines.{is_of, leads_down, has_pair, is_aggregator, stands_over, is_too_deep};

use crate::declare::{Sort, is_of};
use crate::network::AgentKind;
use nsi_base::AgentNo;

pub fn has_pair(pairs: &[(AgentNo, AgentNo)], i: AgentNo, j: AgentNo) -> bool
    ensures { result ≡ has_pair pairs.now i j }
{
    pairs.iter().any(|e| e.0 == i && e.1 == j)
}

pub fn is_aggregator(kinds: &[AgentKind], i: AgentNo) -> bool
    ensures { result ≡ is_aggregator kinds.now i }
{
    is_of(Sort::OneAggregator, kinds.get(i.get() as usize).copied())
}

/// The parents of the marked agents.
fn parents(pairs: &[(AgentNo, AgentNo)], marked: &[bool; 64]) -> [bool; 64]
    ensures { (x : ℕ) → slice_index_or result x false
        ≡ list_any (λ e. (e.0 == x) && slice_index_or marked.now e.1 false) pairs.now }
{
    let mut above = [false; 64];
    for e in pairs {
        if marked[e.1.get() as usize] {
            above[e.0.get() as usize] = true;
        }
    }
    above
}

fn is_marked_aggregator(kinds: &[AgentKind], marked: &[bool; 64], a: AgentNo) -> bool
    ensures { (d : Bool) → result ≡ (is_aggregator kinds.now a && slice_index_or marked.now a d) }
{
    is_aggregator(kinds, a) && marked[a.get() as usize]
}

/// The parents of those of the marked agents that are aggregators.
fn parents_of_aggregators(
    kinds: &[AgentKind],
    pairs: &[(AgentNo, AgentNo)],
    marked: &[bool; 64],
) -> [bool; 64]
    ensures { (d : Bool) → (x : ℕ) → slice_index_or result x false
        ≡ list_any (λ e. (e.0 == x)
        && (is_aggregator kinds.now e.1 && slice_index_or marked.now e.1 d)) pairs.now }
{
    let mut above = [false; 64];
    for e in pairs {
        if is_marked_aggregator(kinds, marked, e.1) {
            above[e.0.get() as usize] = true;
        }
    }
    above
}

/// Whether the pairs lead down from an agent to another, in at most four steps.
pub fn leads_down(pairs: &[(AgentNo, AgentNo)], from: AgentNo, to: AgentNo) -> bool
    ensures { result ≡ leads_down pairs.now 4 from to }
{
    let mut marked = [false; 64];
    marked[to.get() as usize] = true;
    for n in 0..4u8 {
        marked = parents(pairs, &marked);
        marked[to.get() as usize] = true;
    }
    marked[from.get() as usize]
}

/// The agents over which four aggregators stand below each other.
fn tops(kinds: &[AgentKind], pairs: &[(AgentNo, AgentNo)]) -> [bool; 64]
    ensures { (x : ℕ) → slice_index_or result x false ≡ stands_over kinds.now pairs.now 4 x }
{
    let mut marked = parents_of_aggregators(kinds, pairs, &[true; 64]);
    for n in 0..3u8 {
        marked = parents_of_aggregators(kinds, pairs, &marked);
    }
    marked
}

pub fn is_too_deep(kinds: &[AgentKind], pairs: &[(AgentNo, AgentNo)]) -> bool
    ensures { result ≡ is_too_deep kinds.now pairs.now }
{
    let tops = tops(kinds, pairs);
    pairs.iter().any(|e| tops[e.0.get() as usize])
}
