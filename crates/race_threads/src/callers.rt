//! The requesters of a provider, served in threads.

ghost use Rattle.std.specs.Prelude.{◌≡◌, ◌<◌, ◌≤◌, ◌+◌, ◌++◌, ◌∷◌, [], All, length, vec_len, map, IfOk, OnOk, Ok, Some};
ghost use Rattle.stp_topology.specs.Sound.{IsProvider};
ghost use Rattle.race_run.specs.Scripts.{AreAsks, start_of};
ghost use Rattle.nsi_script.specs.Scripts.{acts_of};
ghost use Rattle.race_threads.specs.Raced.{AreKept};
ghost use Rattle.race_threads.specs.Callers.{CanServe, AreCallers, IsServed, ServedEach};

use journal_entry::Journal;
use nsi_base::{AgentNo, Second};
use nsi_script::{Act, Script};
use race_caller::{Door, Gate, Job, served};
use race_judging::{Own, second_of};
use race_run::{Call, is_caller};
use shared_provider::{Pass, SharedProvider};
use std::alloc::{AllocError, Global};
use std::sync::Wait;
use std::thread;
use std::thread::Threads;
use stp_topology::Topology;

/// A requester on its way into a thread.
#[derive(Drop)]
pub struct Caller {
    job: Job,
    pass: Pass,
}

/// Whom the requesters ask, from which second on, and all that is asked.
#[derive(Clone, Copy)]
pub struct Race<'a> {
    pub provider: AgentNo,
    pub start: Option<Second>,
    pub acts: &'a [Act],
}

/// What a script asks of a provider.
pub fn race_of(provider: AgentNo, script: &Script) -> Race<'_>
    requires { length script.now.groups ≤ 1 }
    ensures provider { result.provider ≡ provider }
    ensures start { result.start ≡ start_of script.now.groups }
    ensures acts { result.acts.now ≡ acts_of script.now.groups }
{
    let groups = script.groups.items();
    match groups.first() {
        Some(group) => {
            let acts = group.acts.items();
            Race {
                provider,
                start: Some(group.at),
                acts,
            }
        }
        None => Race {
            provider,
            start: None,
            acts: &[],
        },
    }
}

/// The agent of that place.
pub(crate) fn agent_at(place: usize) -> AgentNo
    requires { place < 64 }
    ensures { result ≡ place }
{
    match AgentNo::new(place as u16) {
        Some(agent) => agent,
        None => unreachable!(),
    }
}

/// A further caller, where an agent is one.
fn push_caller<J: Journal + Drop>(
    topology: &Topology,
    race: &Race<'_>,
    agent: AgentNo,
    shared: &SharedProvider<J>,
    pass: &mut Pass,
    callers: &mut Vec<Caller>,
) -> Result<(), AllocError>
    requires mark { pass.old.mark ≡ shared.now }
    requires agent { agent < length topology.now.agents }
    requires before { AreCallers topology.now race.now.provider race.now.start shared.now
        agent callers.old.items }
    ensures mark { pass.new.mark ≡ shared.now }
    ensures after { OnOk result (AreCallers topology.now race.now.provider race.now.start
        shared.now (agent + 1) callers.new.items) }
{
    if !is_caller(topology, race.provider, Some(agent)) {
        return Ok(());
    }
    let second = second_of(&race.start);
    let call = Call {
        provider: race.provider,
        agent,
        second,
    };
    let number = callers.len() as u16;
    let job = Job { call, number };
    let pass = shared.split(pass);
    callers.push(Caller { job, pass })?;
    Ok(())
}

/// The requesters of the provider, in the order of the agents.
fn callers_of<J: Journal + Drop>(
    alloc: Global,
    topology: &Topology,
    race: &Race<'_>,
    shared: &SharedProvider<J>,
    pass: &mut Pass,
) -> Result<Vec<Caller>, AllocError>
    requires mark { pass.old.mark ≡ shared.now }
    ensures mark { pass.new.mark ≡ shared.now }
    ensures callers { IfOk result (λ v. AreCallers topology.now race.now.provider
        race.now.start shared.now (length topology.now.agents) v.items) }
{
    let mut callers = Vec::new(alloc);
    for place in 0..topology.agents() {
        let agent = agent_at(place);
        push_caller(topology, race, agent, shared, pass, &mut callers)?;
    }
    Ok(callers)
}

/// Whom a job serves.
fn agent_of(job: &Job) -> AgentNo
    ensures { result ≡ job.now.call.agent }
{
    job.call.agent
}

/// Serves a requester.
fn serve<J: Journal + Drop, R: Wait, G: Gate>(
    door: &Door<'_, R, J, G>,
    race: &Race<'_>,
    caller: Caller,
) -> Result<Own, AllocError>
    requires { CanServe door.now.topology.now race.now.provider race.now.start
        race.now.acts.now door.now.shared.now caller }
    ensures { IfOk result (IsServed door.now.topology.now race.now.provider
        race.now.start race.now.acts.now caller) }
{
    let Caller { job, mut pass } = caller;
    let agent = agent_of(&job);
    let items = served(door, &mut pass, job, race.start, race.acts)?;
    Ok(Own { agent, items })
}

/// Each requester in a thread of its own, where one can be made.
fn serve_each<J: Journal + Drop + Send, R: Threads + Wait + Sync, G: Gate + Sync>(
    door: &Door<'_, R, J, G>,
    race: &Race<'_>,
    callers: Vec<Caller>,
) -> Result<Vec<Result<Own, AllocError>>, AllocError>
    requires callers { All (CanServe door.now.topology.now race.now.provider race.now.start
        race.now.acts.now door.now.shared.now) callers.items }
    ensures len { IfOk result (λ v. vec_len v ≡ vec_len callers) }
    ensures each { IfOk result (λ v. ServedEach door.now.topology.now race.now.provider
        race.now.start race.now.acts.now callers.items v.items) }
{
    thread::map_vec(
        door.rt,
        callers,
        &|caller: Caller| -> Result<Own, AllocError>
            requires { CanServe door.now.topology.now race.now.provider race.now.start
                race.now.acts.now door.now.shared.now caller }
            ensures { IfOk result (IsServed door.entry.now.topology.now
                race.entry.now.provider race.entry.now.start race.entry.now.acts.now caller) }
        { serve(door, race, caller) },
    )
}

/// A further list, where the caller has one.
fn push_own(owns: &mut Vec<Own>, own: Result<Own, AllocError>) -> Result<(), AllocError>
    ensures { OnOk result (map Ok owns.new.items ≡ map Ok owns.old.items ++ own ∷ []) }
{
    owns.push(own?)?;
    Ok(())
}

/// What all callers kept.
fn gather(alloc: Global, results: Vec<Result<Own, AllocError>>) -> Result<Vec<Own>, AllocError>
    ensures { IfOk result (λ v. map Ok v.items ≡ results.items) }
{
    let mut owns = Vec::new(alloc);
    for own in results {
        push_own(&mut owns, own)?;
    }
    Ok(owns)
}

/// What the requesters of the provider keep, each served in a thread of its own, where one can be made.
pub fn serve_all<J: Journal + Drop + Send, R: Threads + Wait + Sync, G: Gate + Sync>(
    door: &Door<'_, R, J, G>,
    race: &Race<'_>,
    pass: &mut Pass,
) -> Result<Vec<Own>, AllocError>
    requires mark { pass.old.mark ≡ door.now.shared.now }
    requires provider { IsProvider door.now.topology.now race.now.provider }
    requires within { race.now.provider < length door.now.topology.now.agents }
    requires printable { AreAsks race.now.acts.now }
    ensures { IfOk result (λ v. AreKept door.now.topology.now race.now.provider
        race.now.start race.now.acts.now v.items) }
{
    let callers = callers_of(door.alloc, door.topology, race, door.shared, pass)?;
    let results = serve_each(door, race, callers)?;
    let owns = gather(door.alloc, results)?;
    Ok(owns)
}
