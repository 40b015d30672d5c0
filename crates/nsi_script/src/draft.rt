//! A script as far as it is read.

ghost use Rattle.std.specs.Prelude.{◌≡◌, ◌<◌, ◌≤◌, ◌∷◌, [], ◌++◌, ◌==◌, List as Sequence, ℕ, map, ◌||◌, true, false, not, nat_le, OnOk, length};
ghost use Rattle.stp_topology.specs.declared.network.Network.{Network};
ghost use Rattle.nsi_script.specs.Drafts.{script_in, AreIndexed, StaysFit};
ghost use Rattle.nsi_script.specs.Faults.{Gives, Leaves};
ghost use Rattle.nsi_script.specs.Fits.{IsActOf};
ghost use Rattle.nsi_script.specs.Labels.{is_noted};
ghost use Rattle.nsi_script.specs.Lines.{add_at, ask_of, add_ask, add_force, add_restart, add_plan, add_stop, put_act, accepted, put_ask, by_verb, line_of, is_label_known, is_told, is_planned_for, is_stopped_for};
ghost use Rattle.nsi_script.specs.Scripts.{nothing, group_at, with_act, last_second, is_ask, is_reserve, reserves};
ghost use Rattle.nsi_script.specs.Text.{is_skipped, of_line};
ghost use Rattle.nsi_script.specs.declared.script.Act.{Act as Acts};

use crate::fault::{LineRefusal, ScriptFault, demand};
use crate::form::{Sort, is_linked, known_agent};
use crate::labels::Labels;
use crate::plans::{PlanLines, StopLines};
use crate::script::{Act, Group, PlanLine, Script, StopLine};
use crate::words::{ask, image, name, number, parcel, record, second};
use agent_link::{How, LinkFault};
use nsi_base::words::words;
use nsi_base::{AgentNo, Blanks, List, Name, Second};
use nsi_disk::Stop;
use nsi_primitive::{Ask, What};
use std::alloc::{AllocError, Global};
use stp_topology::Topology;

/// What the lines have said so far, and what makes a further line quick to judge: the labels that are
/// reserved, and how many asks there are.
#[derive(Drop)]
pub struct Draft {
    lose: PlanLines,
    stops: StopLines,
    groups: Vec<Group>,
    labels: Labels,
    asks: u32,
}

/// One act more in the last group.
fn push_act(groups: &mut Vec<Group>, act: Act) -> Result<(), AllocError>
    requires { 0 < length groups.old.items }
    ensures { OnOk result (groups.new.items ≡ with_act groups.old.items act) }
{
    let last = groups.len() - 1;
    groups[last].acts.push(act)
}

/// A group with nothing in it.
fn push_group(groups: &mut Vec<Group>, alloc: Global, at: Second) -> Result<(), AllocError>
    ensures { OnOk result (groups.new.items ≡ groups.old.items ++ group_at at ∷ []) }
{
    let acts = List::new(alloc);
    groups.push(Group { at, acts })?;
    Ok(())
}

/// Notes the label of a reserve.
fn note(labels: &mut Labels, alloc: Global, agent: AgentNo, ask: &Ask) -> Result<(), AllocError>
    ensures { OnOk result ((a : ℕ) (l : Sequence ℕ) → is_noted labels.new a l
        ≡ reserves a l (Acts.Ask agent ask.now) || is_noted labels.old a l) }
{
    match &ask.label {
        Some(label) if is_reserve(&ask.what) => labels.note(alloc, agent, label.bytes()),
        _ => Ok(()),
    }
}

/// The second of the last group; the first second where there is none.
fn last_second(groups: &[Group]) -> u64
    ensures { result ≡ last_second groups.now }
{
    match groups.last() {
        Some(group) => group.at.get(),
        None => 0,
    }
}

/// Whether a group may begin at the second.
fn is_rising(groups: &[Group], at: Second) -> bool
    ensures { result ≡ nat_le (last_second groups.now) at }
{
    last_second(groups) <= at.get()
}

/// Whether a group has begun.
fn is_begun(groups: &[Group]) -> bool
    ensures { result ≡ not (length groups.now == 0) }
{
    !groups.is_empty()
}

fn is_reserve(what: &What) -> bool
    ensures { result ≡ is_reserve what.now }
{
    matches!(what, What::Reserve(_))
}

fn is_skipped(line: &[u8]) -> bool
    ensures { result ≡ is_skipped line.now }
{
    line.is_empty() || line[0] == b'#'
}

impl Draft {
    pub fn new(alloc: Global) -> Draft
        ensures script { script_in result ≡ nothing }
        ensures indexed { AreIndexed result }
    {
        Draft {
            lose: PlanLines::new(alloc),
            stops: StopLines::new(alloc),
            groups: Vec::new(alloc),
            labels: Labels::new(alloc),
            asks: 0,
        }
    }

    /// The whole script.
    pub fn into_script(self) -> Script
        ensures { result ≡ script_in self }
    {
        let Draft {
            lose,
            stops,
            groups,
            labels: _,
            asks: _,
        } = self;
        Script {
            lose: lose.into_list(),
            stops: stops.into_list(),
            groups: List::from_items(groups),
        }
    }

    /// One more group.
    #[tactic(auto, unfolding(crate::specs::Lines::add_at))]
    fn add_at(&mut self, alloc: Global, args: &[&[u8]]) -> Result<(), LineRefusal>
        requires { AreIndexed self.old }
        ensures leaves { let words = map (λ w. w.now) args.now in
            Leaves result (script_in self.new) (add_at (script_in self.old) words) }
        ensures indexed { OnOk result (AreIndexed self.new) }
        ensures fits { (t : Network) → StaysFit t self.old self.new result }
    {
        demand(args.len() == 1, ScriptFault::Word)?;
        let at = second(args[0])?;
        demand(is_rising(&self.groups, at), ScriptFault::Time)?;
        push_group(&mut self.groups, alloc, at)?;
        Ok(())
    }

    #[tactic(auto, unfolding(crate::specs::Lines::put_act))]
    fn put_act(&mut self, act: Act) -> Result<(), LineRefusal>
        requires indexed { AreIndexed self.old }
        requires is_no_ask { is_ask act ≡ false }
        ensures leaves { Leaves result (script_in self.new) (put_act (script_in self.old) act) }
        ensures indexed { OnOk result (AreIndexed self.new) }
        ensures fits { (t : Network) →
            IsActOf t act → StaysFit t self.old self.new result }
    {
        demand(is_begun(&self.groups), ScriptFault::Time)?;
        push_act(&mut self.groups, act)?;
        Ok(())
    }

    fn is_label_known(&self, agent: AgentNo, label: &Option<Name>) -> bool
        requires { AreIndexed self.now }
        ensures { result ≡ is_label_known self.now.groups.items agent label.now }
    {
        match label {
            None => true,
            Some(label) => self.labels.has(agent, label.bytes()),
        }
    }

    /// Whether the ask is about what the requester has reserved, or reserves.
    fn is_told(&self, agent: AgentNo, ask: &Ask) -> bool
        requires { AreIndexed self.now }
        ensures { result ≡ is_told self.now.groups.items agent ask.now }
    {
        is_reserve(&ask.what) || self.is_label_known(agent, &ask.label)
    }

    /// Whether the ask may be one more.
    fn accept(&self, agent: AgentNo, ask: &Ask) -> Result<(), LineRefusal>
        requires { AreIndexed self.now }
        ensures accepted { Gives (λ _. true) result (accepted (script_in self.now) agent ask.now) }
        ensures begun { OnOk result (0 < length self.now.groups.items) }
        ensures few { OnOk result (self.now.asks < 100000) }
    {
        demand(!self.groups.is_empty(), ScriptFault::Time)?;
        demand(self.is_told(agent, ask), ScriptFault::Label)?;
        demand(self.asks < 100_000, ScriptFault::Limit)
    }

    #[tactic(auto, unfolding(crate::specs::Lines::put_ask))]
    fn put_ask(&mut self, alloc: Global, agent: AgentNo, ask: Ask) -> Result<(), LineRefusal>
        requires { AreIndexed self.old }
        ensures leaves { Leaves result (script_in self.new)
            (put_ask (script_in self.old) agent ask) }
        ensures indexed { OnOk result (AreIndexed self.new) }
        ensures fits { (t : Network) →
            IsActOf t (Acts.Ask agent ask) → StaysFit t self.old self.new result }
    {
        self.accept(agent, &ask)?;
        note(&mut self.labels, alloc, agent, &ask)?;
        push_act(&mut self.groups, Act::Ask { agent, ask })?;
        self.asks += 1;
        Ok(())
    }

    #[tactic(auto, unfolding(crate::specs::Lines::ask_of))]
    fn ask_of(
        &mut self,
        alloc: Global,
        topology: &Topology,
        requester: &[u8],
        words: &[&[u8]],
    ) -> Result<(), LineRefusal>
        requires { AreIndexed self.old }
        ensures leaves { let words = map (λ w. w.now) words.now in
            Leaves result (script_in self.new)
            (ask_of topology.now (script_in self.old) requester.now words) }
        ensures indexed { OnOk result (AreIndexed self.new) }
        ensures fits { StaysFit topology.now self.old self.new result }
    {
        let requester = name(requester)?;
        let ask = ask(alloc, words)?;
        let agent = known_agent(topology, Sort::OneRequester, requester)?;
        self.put_ask(alloc, agent, ask)
    }

    fn add_ask(
        &mut self,
        alloc: Global,
        topology: &Topology,
        args: &[&[u8]],
    ) -> Result<(), LineRefusal>
        requires { AreIndexed self.old }
        ensures leaves { let words = map (λ w. w.now) args.now in
            Leaves result (script_in self.new) (add_ask topology.now (script_in self.old) words) }
        ensures indexed { OnOk result (AreIndexed self.new) }
        ensures fits { StaysFit topology.now self.old self.new result }
    {
        match args.split_first() {
            None => Err(LineRefusal::Fault(ScriptFault::Word)),
            Some((requester, words)) => self.ask_of(alloc, topology, requester, words),
        }
    }

    #[tactic(auto, unfolding(crate::specs::Lines::add_force))]
    fn add_force(&mut self, topology: &Topology, args: &[&[u8]]) -> Result<(), LineRefusal>
        requires { AreIndexed self.old }
        ensures leaves { let words = map (λ w. w.now) args.now in
            Leaves result (script_in self.new) (add_force topology.now (script_in self.old) words) }
        ensures indexed { OnOk result (AreIndexed self.new) }
        ensures fits { StaysFit topology.now self.old self.new result }
    {
        demand(args.len() == 2, ScriptFault::Word)?;
        let provider = name(args[0])?;
        let number = record(args[1])?;
        let agent = known_agent(topology, Sort::OneProvider, provider)?;
        self.put_act(Act::Force { agent, number })
    }

    #[tactic(auto, unfolding(crate::specs::Lines::add_restart))]
    fn add_restart(&mut self, topology: &Topology, args: &[&[u8]]) -> Result<(), LineRefusal>
        requires { AreIndexed self.old }
        ensures leaves { let words = map (λ w. w.now) args.now in
            Leaves result (script_in self.new)
            (add_restart topology.now (script_in self.old) words) }
        ensures indexed { OnOk result (AreIndexed self.new) }
        ensures fits { StaysFit topology.now self.old self.new result }
    {
        demand(args.len() == 1, ScriptFault::Word)?;
        let agent = name(args[0])?;
        let agent = known_agent(topology, Sort::Any, agent)?;
        self.put_act(Act::Restart(agent))
    }

    /// Whether something is planned for the parcel already.
    fn is_planned(&self, fault: &LinkFault, from: Option<AgentNo>, to: Option<AgentNo>) -> bool
        ensures { result ≡ is_planned_for self.now.lose fault.now from to }
    {
        match (from, to) {
            (Some(from), Some(to)) => self.lose.has(&PlanLine {
                from,
                to,
                fault: *fault,
            }),
            _ => false,
        }
    }

    #[tactic(auto, unfolding(crate::specs::Lines::add_plan))]
    fn add_plan(&mut self, topology: &Topology, how: How, args: &[&[u8]]) -> Result<(), LineRefusal>
        requires { AreIndexed self.old }
        ensures leaves { let words = map (λ w. w.now) args.now in
            Leaves result (script_in self.new)
            (add_plan topology.now (script_in self.old) how words) }
        ensures indexed { OnOk result (AreIndexed self.new) }
        ensures fits { StaysFit topology.now self.old self.new result }
    {
        demand(args.len() == 4, ScriptFault::Word)?;
        demand(self.groups.is_empty(), ScriptFault::Word)?;
        let from = name(args[0])?;
        let to = name(args[1])?;
        let of = parcel(args[2])?;
        let nth = number(1, u64::MAX, args[3])?;
        let fault = LinkFault { of, nth, how };
        let is_planned = self.is_planned(&fault, topology.agent_of(from), topology.agent_of(to));
        demand(!is_planned, ScriptFault::Word)?;
        let from = known_agent(topology, Sort::Any, from)?;
        let to = known_agent(topology, Sort::Any, to)?;
        demand(is_linked(topology, from, to), ScriptFault::Agent)?;
        self.lose.push(PlanLine { from, to, fault })?;
        Ok(())
    }

    /// Whether the disk stops at the call already.
    fn is_stopped(&self, stop: &Stop, agent: Option<AgentNo>) -> bool
        ensures { result ≡ is_stopped_for self.now.stops stop.now agent }
    {
        match agent {
            Some(agent) => self.stops.has(&StopLine { agent, stop: *stop }),
            None => false,
        }
    }

    #[tactic(auto, unfolding(crate::specs::Lines::add_stop))]
    fn add_stop(&mut self, topology: &Topology, args: &[&[u8]]) -> Result<(), LineRefusal>
        requires { AreIndexed self.old }
        ensures leaves { let words = map (λ w. w.now) args.now in
            Leaves result (script_in self.new) (add_stop topology.now (script_in self.old) words) }
        ensures indexed { OnOk result (AreIndexed self.new) }
        ensures fits { StaysFit topology.now self.old self.new result }
    {
        demand(args.len() == 3, ScriptFault::Word)?;
        demand(self.groups.is_empty(), ScriptFault::Word)?;
        let name = name(args[0])?;
        let call = number(1, u64::MAX, args[1])?;
        let image = image(args[2])?;
        let stop = Stop { call, image };
        let is_stopped = self.is_stopped(&stop, topology.agent_of(name));
        demand(!is_stopped, ScriptFault::Word)?;
        let agent = known_agent(topology, Sort::Any, name)?;
        self.stops.push(StopLine { agent, stop })?;
        Ok(())
    }

    #[tactic(auto, unfolding(crate::specs::Lines::by_verb))]
    fn by_verb(
        &mut self,
        alloc: Global,
        topology: &Topology,
        verb: &[u8],
        args: &[&[u8]],
    ) -> Result<(), LineRefusal>
        requires { AreIndexed self.old }
        ensures leaves { let words = map (λ w. w.now) args.now in
            Leaves result (script_in self.new)
            (by_verb topology.now (script_in self.old) verb.now words) }
        ensures indexed { OnOk result (AreIndexed self.new) }
        ensures fits { StaysFit topology.now self.old self.new result }
    {
        if verb == b"ask".as_slice() {
            self.add_ask(alloc, topology, args)
        } else if verb == b"at".as_slice() {
            self.add_at(alloc, args)
        } else if verb == b"force".as_slice() {
            self.add_force(topology, args)
        } else if verb == b"restart".as_slice() {
            self.add_restart(topology, args)
        } else if verb == b"lose".as_slice() {
            self.add_plan(topology, How::Lose, args)
        } else if verb == b"repeat".as_slice() {
            self.add_plan(topology, How::Repeat, args)
        } else if verb == b"stop".as_slice() {
            self.add_stop(topology, args)
        } else {
            Err(LineRefusal::Fault(ScriptFault::Word))
        }
    }

    /// What a line of words says.
    fn declare(
        &mut self,
        alloc: Global,
        topology: &Topology,
        words: &[&[u8]],
    ) -> Result<(), LineRefusal>
        requires { AreIndexed self.old }
        ensures leaves { let words = map (λ w. w.now) words.now in
            Leaves result (script_in self.new) (line_of topology.now (script_in self.old) words) }
        ensures indexed { OnOk result (AreIndexed self.new) }
        ensures fits { StaysFit topology.now self.old self.new result }
    {
        match words.split_first() {
            None => Err(LineRefusal::Fault(ScriptFault::Word)),
            Some((verb, args)) => self.by_verb(alloc, topology, verb, args),
        }
    }

    /// What a line says, which is given without its end. A draft that has refused a line is of no use.
    #[tactic(auto, unfolding(crate::specs::Text::of_line))]
    pub fn take_line(
        &mut self,
        alloc: Global,
        topology: &Topology,
        line: &[u8],
    ) -> Result<(), LineRefusal>
        requires { AreIndexed self.old }
        ensures leaves { Leaves result (script_in self.new)
            (of_line topology.now (script_in self.old) line.now) }
        ensures indexed { OnOk result (AreIndexed self.new) }
        ensures fits { StaysFit topology.now self.old self.new result }
    {
        if is_skipped(line) {
            return Ok(());
        }
        let words = words(alloc, Blanks::SpaceOrTab, line)?;
        self.declare(alloc, topology, &words)
    }
}
