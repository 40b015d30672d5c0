//! Acts of a script.

ghost use Rattle.std.specs.Prelude.{◌≡◌, ◌≤◌, [], ◌∷◌, List, ℕ, None, true, IfErr, OnOk};
ghost use Rattle.nsi_primitive.specs.Printable.{IsPrintableAsk};
ghost use Rattle.requester_agent.specs.Setting.{IsRequester};
ghost use Rattle.nsi_play.specs.Play.{RestartsNone};
ghost use Rattle.agent_threads.specs.Nets.{seats, EachIs, AreUsable, AreApart, AreListed, IsUnstopped};
ghost use Rattle.agent_threads.specs.Made.{Does, DoesAct, HasRoom, HaveRoom, asks_at, forces_at, part_in, counted, KeepsShelf, HasRunCause, IsOfRestart, AreLeft};
ghost use Rattle.agent_threads.specs.Promise.{CanBeDone, CanAct};

use crate::fault::RunFault;
use crate::restart::restart_at;
use agent_node::{Node, Reopen};
use journal_entry::Journal;
use nsi_base::{AgentNo, RecordNo};
use nsi_primitive::Ask;
use nsi_script::Act;
use std::alloc::{AllocError, Global};

/// The agent with this number is asked.
fn ask_one<'t, J: Journal + Drop>(
    alloc: Global,
    node: &mut Node<'t, J>,
    agent: AgentNo,
    number: u32,
    ask: &Ask,
) -> Result<(), AllocError>
    requires usable { node.old.fault ≡ None }
    requires few { HasRoom 1 node.old }
    requires requester { IsRequester node.old.network agent }
    requires printable { IsPrintableAsk ask.now }
    ensures done { OnOk result (Does (asks_at agent number ask.now) node.old node.new) }
    ensures agent { IsUnstopped node.old node.new }
{
    if node.number() != agent {
        return Ok(());
    }
    let ask = ask.copy()?;
    node.ask(alloc, number, ask)?;
    Ok(())
}

/// A connection of the agent with this number is ended by force.
fn force_one<'t, J: Journal + Drop>(
    alloc: Global,
    node: &mut Node<'t, J>,
    agent: AgentNo,
    connection: RecordNo,
) -> Result<(), AllocError>
    requires usable { node.old.fault ≡ None }
    requires few { HasRoom 1 node.old }
    ensures done { OnOk result (Does (forces_at agent connection) node.old node.new) }
    ensures agent { IsUnstopped node.old node.new }
{
    if node.number() != agent {
        return Ok(());
    }
    node.force(alloc, connection)?;
    Ok(())
}

/// An agent's part in an act that restarts nobody, where an ask has this number.
fn act_one<'t, J: Journal + Drop>(
    alloc: Global,
    node: &mut Node<'t, J>,
    act: &Act,
    number: u32,
) -> Result<(), AllocError>
    requires usable { node.old.fault ≡ None }
    requires few { HasRoom 1 node.old }
    requires can { CanBeDone node.old.network act.now }
    requires none { RestartsNone act.now }
    ensures done { OnOk result (Does (part_in act.now number) node.old node.new) }
    ensures agent { IsUnstopped node.old node.new }
{
    match act {
        Act::Ask { agent, ask } => ask_one(alloc, node, *agent, number, ask),
        Act::Force {
            agent,
            number: connection,
        } => force_one(alloc, node, *agent, *connection),
        Act::Restart(_) => unreachable!(),
    }
}

/// An act that restarts nobody.
fn act_each<'t, J: Journal + Drop>(
    alloc: Global,
    nodes: &mut Vec<Node<'t, J>>,
    act: &Act,
    number: u32,
) -> Result<(), AllocError>
    requires usable { AreUsable nodes.old.items }
    requires few { HaveRoom 1 nodes.old.items }
    requires can { CanAct act.now nodes.old.items }
    requires none { RestartsNone act.now }
    ensures done { OnOk result
        (EachIs (Does (part_in act.now number)) nodes.old.items nodes.new.items) }
    ensures agents { EachIs IsUnstopped nodes.old.items nodes.new.items }
{
    for node in nodes.iter_mut() {
        act_one(alloc, node, act, number)?;
    }
    Ok(())
}

/// An act. An agent that isn't restarted is gone, and its disk went back to the shelf or is lost.
pub fn act_all<'t, J: Journal + Drop, B: Reopen<J>>(
    alloc: Global,
    nodes: &mut Vec<Node<'t, J>>,
    shelf: &mut B,
    act: &Act,
    number: u32,
) -> Result<(), RunFault>
    requires usable { AreUsable nodes.old.items }
    requires apart { AreApart (seats nodes.old.items) }
    requires few { HaveRoom 1 nodes.old.items }
    requires can { CanAct act.now nodes.old.items }
    requires listed { AreListed (B.listed shelf.old) nodes.old.items }
    ensures done { OnOk result
        (EachIs (DoesAct act.now number) nodes.old.items nodes.new.items) }
    ensures agents { AreLeft nodes.old.items nodes.new.items
        (counted (B.faults shelf.old) (B.stops shelf.old))
        (counted (B.faults shelf.new) (B.stops shelf.new)) }
    ensures shelf { KeepsShelf (counted (B.faults shelf.old) (B.stops shelf.old))
        (counted (B.faults shelf.new) (B.stops shelf.new)) result }
    ensures stays { (n : List ℕ) → B.listed shelf.old n ≡ true → B.listed shelf.new n ≡ true }
    ensures cause { IfErr result (HasRunCause (act.now ∷ []) nodes.old.items nodes.new.items
        (counted (B.faults shelf.old) (B.stops shelf.old))
        (counted (B.faults shelf.new) (B.stops shelf.new))) }
    ensures mild { IfErr result IsOfRestart }
{
    if let Act::Restart(agent) = act {
        return restart_at(alloc, nodes, shelf, *agent);
    }
    act_each(alloc, nodes, act, number)?;
    Ok(())
}
