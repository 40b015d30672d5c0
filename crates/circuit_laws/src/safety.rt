//! Every run is safe. Each function is its contract.

ghost use Rattle.circuit_laws.specs.SafeLaws.{EveryRunIsSafe, NothingIsSafe};

use crate::laws::{asked_for, circuits, known, living, views};
use run_growth::laws::every_run_safe_at_each_agent;

/// Whatever is lost, comes twice or comes late, and whoever begins again from what was synced: in every world of every run no load passes a
/// capacity, refusals for bandwidth are honest, committed versions rise, and what is synced stays; and what a parent has as committed its child
/// backs, so that each circuit stands in each network on its way.
pub fn every_run_safe()
    ensures { EveryRunIsSafe }
{
    every_run_safe_at_each_agent();
    views();
    known();
    asked_for();
    living();
    circuits();
}

/// Where nothing has happened, a run is safe, whatever the topology is.
pub fn nothing_safe()
    ensures { NothingIsSafe }
{
    every_run_safe_at_each_agent();
}
