//! The lines of a trace, one after another.

ghost use Rattle.std.specs.Prelude.{◌≡◌, ◌≤◌, ◌<◌, ◌+◌, IfOk, length};
ghost use Rattle.nsi_base.specs.Range.{greatest_input};
ghost use Rattle.nsi_agent.specs.Homes.{Routes, AreRoutes, home_in};
ghost use Rattle.nsi_world.specs.Worlds.{empty};
ghost use Rattle.trace_verify.specs.Lines.{trace_lines};
ghost use Rattle.trace_verify.specs.Standing.{IsFollower, Shows};
ghost use Rattle.trace_verify.specs.Steps.{Closes};
ghost use Rattle.trace_verify.specs.Verdicts.{Finds};

use crate::follower::Follower;
use crate::lines::{cut_at_feed, is_settled};
use crate::step::{Step, follow};
use crate::verdict::{Verdict, VerifyFault, Why};
use nsi_world::laws::sent;
use std::alloc::{AllocError, Global};
use stp_topology::Topology;

/// Whether the lines of a trace are the text of a run by the agents of a topology, and behind it `settled` and the number of
/// its events; or the first line that no run goes on with, the first of all being `first_line`. So many events are followed
/// at most.
pub fn verify(
    alloc: Global,
    topology: &Topology,
    text: &[u8],
    first_line: u32,
    limit: u64,
) -> Result<Verdict, VerifyFault>
    requires size { length text.now ≤ greatest_input }
    requires first { first_line ≤ greatest_input + 1 }
    ensures finds { (routes : Routes) → AreRoutes topology.now routes →
        let homes = home_in topology.now routes in
        Finds topology.now homes first_line limit (trace_lines text.now) result }
{
    let mut follower = Follower::new(alloc, topology)?;
    let found = verify_by(alloc, topology, &mut follower, text, first_line, limit);
    let_go(follower);
    found
}

/// The same, by agents to which nothing has happened yet.
fn verify_by<'t>(
    alloc: Global,
    topology: &'t Topology,
    follower: &mut Follower<'t>,
    text: &[u8],
    first_line: u32,
    limit: u64,
) -> Result<Verdict, VerifyFault>
    requires follower { IsFollower topology.now follower.old }
    requires shows { Shows follower.old empty }
    requires size { length text.now ≤ greatest_input }
    requires first { first_line ≤ greatest_input + 1 }
    ensures finds { (routes : Routes) → AreRoutes topology.now routes →
        let homes = home_in topology.now routes in
        Finds topology.now homes first_line limit (trace_lines text.now) result }
{
    sent();
    let mut rest = text;
    let mut line = first_line;
    let mut asks: u32 = 0;
    let mut events: u64 = 0;
    'lines: while 0 < rest.len() {
        let (bytes, behind) = cut_at_feed(rest);
        match follow(alloc, topology, follower, asks, bytes)? {
            Step::Event { .. } if events == limit => return Err(VerifyFault::Long),
            Step::Event { asks: count } => asks = count,
            Step::Closing => {
                let verdict = close(alloc, bytes, behind, line, events)?;
                return Ok(verdict);
            }
            Step::Not(why) => return Ok(Verdict::Not { line, why }),
        }
        events += 1;
        line += 1;
        rest = behind;
    }
    Ok(Verdict::Not {
        line,
        why: Why::End,
    })
}

fn let_go(_follower: Follower<'_>) {}

/// What is found of a trace of so many events that a line ends, behind which stands that text.
fn close(
    alloc: Global,
    bytes: &[u8],
    behind: &[u8],
    line: u32,
    events: u64,
) -> Result<Verdict, AllocError>
    requires { line < 4294967295 }
    ensures { IfOk result (Closes bytes.now (trace_lines behind.now) line events) }
{
    if !is_settled(alloc, bytes, events)? {
        return Ok(Verdict::Not {
            line,
            why: Why::End,
        });
    }
    if 0 < behind.len() {
        return Ok(Verdict::Not {
            line: line + 1,
            why: Why::End,
        });
    }
    Ok(Verdict::Run { events })
}
