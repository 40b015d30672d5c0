//! The topology that an input begins with, and the text behind it.
#![tactic(auto)]

ghost use Rattle.std.specs.Prelude.{◌≤◌, ◌+◌, length, IfOk};
ghost use Rattle.nsi_base.specs.Range.{greatest_input};
ghost use Rattle.topology_input.specs.Reading.{Declares};

use nsi_base::line::cut_line;
use std::alloc::Global;
use stp_topology::{LineRefusal, Taken, Topology, TopologyFault, TopologyRefusal};

/// A topology, on how many lines it stands, and the text behind these.
#[derive(Drop)]
pub struct Declared<'a> {
    pub topology: Topology,
    pub lines: u32,
    pub behind: &'a [u8],
}

/// Reads the topology that a text begins with.
pub fn read_declared(alloc: Global, text: &[u8]) -> Result<Declared<'_>, TopologyRefusal>
    requires { length text.now ≤ greatest_input }
    ensures reads { Declares text.now result }
    ensures few { IfOk result (λ d. d.lines + length d.behind.now ≤ length text.now) }
{
    let mut topology = Topology::new(alloc);
    let mut rest = text;
    let mut before: u32 = 0;
    'lines: while 0 < rest.len() {
        let (bytes, behind) = cut_line(rest);
        before += 1;
        match topology.take_line(bytes) {
            Ok(Taken::More(next)) => topology = next,
            Ok(Taken::Whole(whole)) => {
                return Ok(Declared {
                    topology: whole,
                    lines: before,
                    behind,
                });
            }
            Err(LineRefusal::Fault(fault)) => {
                return Err(TopologyRefusal::Fault {
                    line: before,
                    fault,
                });
            }
            Err(LineRefusal::NoMemory) => return Err(TopologyRefusal::NoMemory),
        }
        rest = behind;
    }
    Err(TopologyRefusal::Fault {
        line: before + 1,
        fault: TopologyFault::Word,
    })
}
