//! Disks go back to their shelf.

ghost use Rattle.std.specs.Prelude.{◌≤◌};
ghost use Rattle.nsi_disk.specs.ShelfCounts.{Raised};
ghost use Rattle.net_run.specs.Journals.{AreToReturn, AreRead};
ghost use Rattle.net_run.specs.Begun.{AreListed, faults_among, stops_among, planned_among};

use agent_node::Node;
use disk_journal::DiskJournal;
use nsi_disk::Shelf;
use stp_topology::Topology;

/// Gives the disks of agents back under the agents' names.
pub fn close_net<'t, H: Shelf>(
    nodes: Vec<Node<'t, DiskJournal<H::Disk>>>,
    topology: &Topology,
    shelf: &mut H,
)
where
    H::Disk: Drop,
    requires listed { AreListed (H.listed shelf.old) topology.now nodes.items }
    ensures faults { Raised
        (H.faults shelf.old) (faults_among nodes.entry.items) (H.faults shelf.new) }
    ensures stops { Raised (H.stops shelf.old) (stops_among nodes.entry.items) (H.stops shelf.new) }
    ensures few { stops_among nodes.entry.items ≤ planned_among nodes.entry.items }
    ensures held { AreToReturn topology.now nodes.entry.items →
        AreRead topology.now (H.holds shelf.new) nodes.entry.items }
{
    for node in nodes {
        let agent = node.number();
        let disk = node.into_disk();
        shelf.give_back(topology.name(agent), disk);
    }
}
