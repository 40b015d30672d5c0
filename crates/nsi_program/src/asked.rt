//! What a line behind the topology asks for.

ghost use Rattle.std.specs.Prelude.{◌≡◌, ◌<◌, length, map, IfOk, IfSome};
ghost use Rattle.nsi_program.specs.Asked.{aggregator_of, wanted_of, ask_of, IsWithin};

use nsi_base::words::words;
use nsi_base::{AgentNo, Blanks, StpNo};
use std::alloc::{AllocError, Global};
use stp_topology::{AgentKind, Topology};

/// A path through the children of an aggregator, from a source to a destination.
#[derive(Clone, Copy, Debug, PartialEq, Eq)]
pub struct Wanted {
    pub aggregator: AgentNo,
    pub source: StpNo,
    pub dest: StpNo,
}

/// What a line asks for.
#[derive(Clone, Copy, Debug, PartialEq, Eq)]
pub enum Ask {
    Nothing,
    Path(Wanted),
    /// It has another form, or names something unknown or of the wrong sort.
    Bad,
}

/// The aggregator of that name.
fn aggregator_of(topology: &Topology, name: &[u8]) -> Option<AgentNo>
    ensures { result ≡ aggregator_of topology.now name.now }
{
    let agent = topology.agent_of(name)?;
    match topology.kind(agent) {
        AgentKind::Aggregator => Some(agent),
        _ => None,
    }
}

/// The path that the words ask for.
#[tactic(auto, unfolding(crate::specs::Asked::wanted_of))]
fn wanted_of(topology: &Topology, words: &[&[u8]]) -> Option<Wanted>
    ensures wanted { result ≡ wanted_of topology.now (map (λ w. w.now) words.now) }
    ensures within { IfSome result (λ w. w.source < length topology.now.stps) }
{
    if words.len() != 4 {
        return None;
    }
    if words[0] != b"path".as_slice() {
        return None;
    }
    let aggregator = aggregator_of(topology, words[1])?;
    let source = topology.stp_of(words[2])?;
    let dest = topology.stp_of(words[3])?;
    Some(Wanted {
        aggregator,
        source,
        dest,
    })
}

/// What a line asks for. Its words stand between single spaces.
#[tactic(auto, unfolding(crate::specs::Asked::ask_of))]
pub(crate) fn ask_of(alloc: Global, topology: &Topology, line: &[u8]) -> Result<Ask, AllocError>
    ensures ask { IfOk result (λ a. a ≡ ask_of topology.now line.now) }
    ensures within { IfOk result (λ a. IsWithin topology.now a) }
{
    if line.is_empty() {
        return Ok(Ask::Nothing);
    }
    let words = words(alloc, Blanks::Space, line)?;
    match wanted_of(topology, &words) {
        Some(wanted) => Ok(Ask::Path(wanted)),
        None => Ok(Ask::Bad),
    }
}
