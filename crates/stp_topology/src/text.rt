//! A topology as a text.

ghost use Rattle.std.specs.Prelude.{◌≤◌, length};
ghost use Rattle.nsi_base.specs.Range.{greatest_input};
ghost use Rattle.stp_topology.specs.Text.{Reads, topology_of};

use crate::fault::{LineRefusal, TopologyFault, TopologyRefusal};
use crate::topology::{Taken, Topology};
use nsi_base::line::cut_line;
use std::alloc::Global;

/// The topology that a text begins with, and the place behind the line `---` and its end.
pub fn read_topology(alloc: Global, text: &[u8]) -> Result<(Topology, usize), TopologyRefusal>
    requires { length text.now ≤ greatest_input }
    ensures { Reads result (topology_of text.now) }
{
    let mut topology = Topology::new(alloc);
    let mut rest = text;
    let mut before: u32 = 0;
    'lines: while 0 < rest.len() {
        let (bytes, behind) = cut_line(rest);
        before += 1;
        match topology.take_line(bytes) {
            Ok(Taken::More(next)) => topology = next,
            Ok(Taken::Whole(whole)) => return Ok((whole, text.len() - behind.len())),
            Err(LineRefusal::Fault(fault)) => {
                return Err(TopologyRefusal::Fault {
                    line: before,
                    fault,
                });
            }
            Err(LineRefusal::NoMemory) => return Err(TopologyRefusal::NoMemory),
        }
        rest = behind;
    }
    Err(TopologyRefusal::Fault {
        line: before + 1,
        fault: TopologyFault::Word,
    })
}
