//! How many levels of aggregators stand below each other.

ghost use Rattle.std.specs.Prelude.{◌≡◌, ◌≤◌};
ghost use Rattle.stp_topology.specs.Rank.{rank_to};

use crate::child_lines::is_aggregator;
use crate::network::Network;
use nsi_base::AgentNo;

/// The rank of an agent, from so many levels below it.
#[tactic(auto, unfolding(crate::specs::Rank::rank_to))]
pub fn rank_to(n: u8, network: &Network, a: AgentNo) -> u8
    requires { n ≤ 5 }
    ensures rank { result ≡ rank_to n network.now a }
    ensures within { result ≤ n }
{
    if n == 0 || !is_aggregator(network.kinds.items(), a) {
        return 0;
    }
    let mut greatest = 0;
    for child in network.children.of(a) {
        greatest = greatest.max(rank_to(n - 1, network, *child));
    }
    greatest + 1
}
