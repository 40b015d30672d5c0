//! Laws of events and their lines.

ghost use Rattle.trace_reader.specs.Laws.{AreTextsReadAgain, HasNames, LinesAreApart, TextsAreApart, TimedTextsAreApart, TopologiesHaveNames};

use ask_text::laws::asks_are_read_again;
use json_primitives::laws::lines_are_read_again;
use nsi_base::AgentNo;
use stp_topology::{Topology, every_topology};

/// It looks at the name of each agent, and tells that it is one, by which the agent is found.
pub fn names_are_told(topology: &Topology)
    ensures { HasNames topology.now }
{
    topology.laws();
    for place in 0..topology.agents() {
        let Some(agent) = AgentNo::new(place as u16) else {
            unreachable!()
        };
        let _name = topology.name(agent).bytes();
    }
}

/// In each topology that a text gives, each agent has a name, by which it is found.
pub fn topologies_have_names()
    ensures { TopologiesHaveNames }
{
    every_topology();
}

/// Two events of one moment that have one line are one event.
pub fn lines_are_apart()
    ensures { LinesAreApart }
{
    texts_are_read_again();
}

/// The text of a run determines its events: two lists of events that go on from one past and have one text are one list;
/// and so are two that have one text, where each second and number of asks is given by the events before.
pub fn texts_are_apart()
    ensures journals { TextsAreApart }
    ensures any_clock { TimedTextsAreApart }
{
    texts_are_read_again();
}

/// The texts of asks, messages and acknowledgements are read as what they are written for.
pub(crate) fn texts_are_read_again()
    ensures { AreTextsReadAgain }
{
    asks_are_read_again();
    lines_are_read_again();
}
