//! The law of what a play leaves. The function is its contract.

ghost use Rattle.settled_play.specs.Settled.{PlaySettles, PlayLeavesNone};

use agent_speech::laws::every_step;
use nsi_world::laws::{agents, play_runs};

/// At the end of a play each message that an agent has said is for an agent of the topology, and was got by it, a request by its header,
/// and the one that said it took the acknowledgement: all but as many as the plans of the two ways lose, where its addressee has no restart
/// behind the last tick or restart of the one that said it. So where they lose none and no event is a restart it is so of each.
pub fn settled()
    ensures counts { PlaySettles }
    ensures each { PlayLeavesNone }
{
    agents();
    every_step();
    play_runs();
}
