//! The links of each two agents meet.

ghost use Rattle.std.specs.Prelude.{◌≡◌, [], ◌∷◌, ℕ, vec_capacity};
ghost use Rattle.nsi_play.specs.Rounds.{meets_each, met_all};
ghost use Rattle.agent_node.specs.Kept.{plug};
ghost use Rattle.agent_threads.specs.Nets.{seats, numbers, EachIs, IsAbsent, AreApart, IsLinkedToAll, AreWired, plugs_to};
ghost use Rattle.agent_threads.specs.Made.{Stays, met_by_each};

use agent_node::Node;
use journal_entry::Journal;

/// An agent meets each of the others.
fn meet_rest<'t, J: Journal + Drop>(first: &mut Node<'t, J>, rest: &mut [Node<'t, J>])
    requires linked { IsLinkedToAll first.old rest.old }
    requires alone { IsAbsent first.old.seat.number (numbers (seats rest.old)) }
    requires apart { AreApart (seats rest.old) }
    ensures first { first.new.seat ≡ meets_each first.old.seat (seats rest.old) }
    ensures rest { seats rest.new ≡ met_by_each first.old.seat (seats rest.old) }
    ensures stays { Stays first.old first.new }
    ensures each { EachIs Stays rest.old rest.new }
    ensures linked { IsLinkedToAll first.new rest.new }
    ensures here { (m : ℕ) → IsAbsent m (numbers (seats rest.old)) →
        plug first.new m ≡ plug first.old m }
    ensures there { (m : ℕ) → (m ≡ first.old.seat.number → ⊥) →
        plugs_to m rest.new ≡ plugs_to m rest.old }
{
    for other in rest.iter_mut() {
        first.meet(other);
    }
}

/// Each two agents meet. It takes no memory.
pub fn meet_all<'t, J: Journal + Drop>(nodes: &mut Vec<Node<'t, J>>)
    requires apart { AreApart (seats nodes.old.items) }
    requires wired { AreWired nodes.old.items }
    ensures all { seats nodes.new.items ≡ met_all (seats nodes.old.items) }
    ensures each { EachIs Stays nodes.old.items nodes.new.items }
    ensures wired { AreWired nodes.new.items }
    ensures others { (m : ℕ) → IsAbsent m (numbers (seats nodes.old.items)) →
        plugs_to m nodes.new.items ≡ plugs_to m nodes.old.items }
    ensures capacity { vec_capacity nodes.new ≡ vec_capacity nodes.old }
{
    if let Some(mut last) = nodes.pop() {
        meet_all(nodes);
        meet_rest(&mut last, nodes);
        nodes.push_reserved(last);
    }
}
