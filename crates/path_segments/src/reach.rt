//! Which agents stand below an agent.

ghost use Rattle.std.specs.Prelude.{◌≡◌, ℕ, ◌<◌, ◌↔◌, ◌⊎◌, length, get_or, false, true};
ghost use Rattle.path_segments.specs.Walks.{IsBelow, AreAgents};

use nsi_base::AgentNo;
use stp_topology::Topology;

pub fn is_marked(among: &[bool], agent: u16) -> bool
    ensures { result ≡ get_or among.now agent false }
{
    match among.get(agent as usize) {
        Some(is_among) => *is_among,
        None => false,
    }
}

/// Marks the agent and those below it.
pub fn mark_below(topology: &Topology, depth: u8, agent: AgentNo, marks: &mut Vec<bool>)
    requires agents { AreAgents topology.now }
    requires agent { agent < length topology.now.agents }
    requires marks { length marks.old.items ≡ length topology.now.agents }
    ensures same_length { length marks.new.items ≡ length marks.old.items }
    ensures exact { (b : ℕ) → (get_or marks.new.items b false ≡ true)
        ↔ ((get_or marks.old.items b false ≡ true) ⊎ IsBelow topology.now depth agent b) }
{
    marks[agent.get() as usize] = true;
    if depth == 0 {
        return;
    }
    for child in topology.children(agent) {
        mark_below(topology, depth - 1, *child, marks);
    }
}
