//! A script as a text.

ghost use Rattle.std.specs.Prelude.{◌≤◌, ◌+◌, length, IfOk};
ghost use Rattle.nsi_base.specs.Range.{greatest_input};
ghost use Rattle.nsi_script.specs.Fits.{Fits};
ghost use Rattle.nsi_script.specs.Text.{Reads, script_of};

use crate::draft::Draft;
use crate::fault::{LineRefusal, ScriptRefusal};
use crate::script::Script;
use nsi_base::line::cut_line;
use std::alloc::Global;
use stp_topology::Topology;

/// The script that a text is, of agents of the topology. `first_line` is the number of the text's first
/// line, so that the lines behind a topology's `---` are counted on from there.
pub fn read_script(
    alloc: Global,
    text: &[u8],
    first_line: u32,
    topology: &Topology,
) -> Result<Script, ScriptRefusal>
    requires text { length text.now ≤ greatest_input }
    requires first_line { first_line ≤ greatest_input + 1 }
    ensures reads { Reads result (script_of topology.now first_line text.now) }
    ensures fits { IfOk result (λ s. Fits topology.now s) }
{
    let mut draft = Draft::new(alloc);
    let mut rest = text;
    let mut number = first_line;
    'lines: while 0 < rest.len() {
        let (line, behind) = cut_line(rest);
        match draft.take_line(alloc, topology, line) {
            Ok(()) => {}
            Err(LineRefusal::Fault(fault)) => {
                return Err(ScriptRefusal::Fault {
                    line: number,
                    fault,
                });
            }
            Err(LineRefusal::NoMemory) => return Err(ScriptRefusal::NoMemory),
        }
        rest = behind;
        number += 1;
    }
    Ok(draft.into_script())
}
