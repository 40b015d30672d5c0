//! Least paths as lines.

ghost use Rattle.std.specs.Prelude.{◌≡◌, ◌<◌, ◌++◌, length, codes, decimal, IfOk, OnOk, All};
ghost use Rattle.path_segments.specs.Paths.{IsKnown};
ghost use Rattle.nsi_program.specs.Check.{segment_text, path_line, count_line, TellsPath, Answers};

use crate::asked::{Ask, Wanted, ask_of};
use nsi_base::Name;
use path_segments::{PathFault, Segment, find};
use std::alloc::{AllocError, Global};
use stp_topology::Topology;

/// Appends a name behind a space.
fn push_name(text: &mut Vec<u8>, name: &Name) -> Result<(), AllocError>
    ensures { OnOk result (text.new.items ≡ text.old.items ++ (codes " " ++ name.now)) }
{
    text.push(b' ')?;
    text.extend_from_slice(name.bytes())?;
    Ok(())
}

/// Appends a segment.
fn push_segment(
    text: &mut Vec<u8>,
    topology: &Topology,
    segment: &Segment,
) -> Result<(), AllocError>
    requires { IsKnown topology.now segment.now }
    ensures { OnOk result
        (text.new.items ≡ text.old.items ++ segment_text topology.now segment.now) }
{
    push_name(text, topology.name(segment.child))?;
    push_name(text, topology.stp_name(segment.entry))?;
    push_name(text, topology.stp_name(segment.exit))?;
    Ok(())
}

/// A path as a line.
fn path_line(
    alloc: Global,
    topology: &Topology,
    segments: &[Segment],
) -> Result<Vec<u8>, AllocError>
    requires { All (IsKnown topology.now) segments.now }
    ensures { IfOk result (λ text. text.items ≡ path_line topology.now segments.now) }
{
    let mut text = Vec::from_slice(alloc, b"path")?;
    for segment in segments {
        push_segment(&mut text, topology, segment)?;
    }
    text.push(b'\n')?;
    Ok(text)
}

/// The least path that is wanted, or that there is none.
fn tell_path(alloc: Global, topology: &Topology, wanted: &Wanted) -> Result<Vec<u8>, AllocError>
    requires { wanted.now.source < length topology.now.stps }
    ensures { IfOk result (λ text. TellsPath topology.now wanted.now text.items) }
{
    topology.facts();
    match find(
        alloc,
        topology,
        wanted.aggregator,
        wanted.source,
        wanted.dest,
    ) {
        Ok(path) => path_line(alloc, topology, path.segments.items()),
        Err(PathFault::NoPath) => Vec::from_slice(alloc, b"nopath\n"),
        Err(PathFault::NoMemory) => Err(AllocError),
    }
}

/// What a line behind the topology is answered.
pub(crate) fn answer(alloc: Global, topology: &Topology, line: &[u8]) -> Result<Vec<u8>, AllocError>
    ensures { IfOk result (λ text. Answers topology.now line.now text.items) }
{
    match ask_of(alloc, topology, line)? {
        Ask::Nothing => Ok(Vec::new(alloc)),
        Ask::Path(wanted) => tell_path(alloc, topology, &wanted),
        Ask::Bad => Vec::from_slice(alloc, b"bad\n"),
    }
}

/// How many agents, STPs and SDPs there are.
pub(crate) fn count_line(alloc: Global, topology: &Topology) -> Result<Vec<u8>, AllocError>
    ensures { IfOk result (λ text. text.items ≡ count_line topology.now) }
{
    let mut text = Vec::from_slice(alloc, b"agents ")?;
    push_number(alloc, &mut text, topology.agents())?;
    text.extend_from_slice(b" stps ")?;
    push_number(alloc, &mut text, topology.stps())?;
    text.extend_from_slice(b" sdps ")?;
    push_number(alloc, &mut text, topology.sdps())?;
    text.push(b'\n')?;
    Ok(text)
}

/// Appends a number.
fn push_number(alloc: Global, text: &mut Vec<u8>, n: usize) -> Result<(), AllocError>
    ensures { OnOk result (text.new.items ≡ text.old.items ++ decimal n) }
{
    let digits = n.to_string(alloc)?;
    text.extend_from_slice(digits.as_bytes())?;
    Ok(())
}
