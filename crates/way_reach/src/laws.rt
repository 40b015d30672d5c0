//! The laws of how far reserves come. Each function is its contract.

ghost use Rattle.way_reach.specs.Laws.{ReachIsASum};

/// What a leg comes to is one agent, and what the legs come to that this agent makes of it. So what an aggregator asks for a request
/// comes to one agent less than the request itself.
pub fn reach_is_a_sum()
    ensures { ReachIsASum }
{}
