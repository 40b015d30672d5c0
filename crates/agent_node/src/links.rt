//! An agent's ends of the links to others.

ghost use Rattle.std.specs.Prelude.{◌≡◌, ℕ, Some, ◌++◌, map, OnOk, IfOk};
ghost use Rattle.std.specs.List.{All};
ghost use Rattle.nsi_primitive.specs.Printable.{IsPrintable, IsPrintableParcel};
ghost use Rattle.stp_topology.specs.Network.{agent_of};
ghost use Rattle.agent_node.specs.Doors.{change_first, queue_at};
ghost use Rattle.agent_node.specs.Passing.{says, says_all, pushes, has_queued, is_queued, come_through, lying, clears, IsPrintableCome, is_idle, all_idle, is_still, all_still, is_still_to, let_through, learns, HasMet, plug_to, crossed};
ghost use Rattle.agent_node.specs.Restarts.{drops};
ghost use Rattle.agent_node.specs.Linked.{door_of, plug_of, doors, plugs, HasSameLinks};

use crate::queue::Queue;
use agent_link::{Incoming, Outgoing, meet};
use nsi_base::AgentNo;
use nsi_primitive::{Identity, Message, Parcel};
use std::alloc::{AllocError, Global};
use std::marker::Model;
use stp_topology::Topology;

/// The ends of both ways of the link to another agent.
#[derive(Drop)]
pub struct Link {
    pub other: AgentNo,
    pub queue: Queue,
    pub out: Outgoing,
    pub inc: Incoming,
}

impl Link {
    /// Puts what came behind the rest, each parcel with its sender.
    fn hand_out(&mut self, all: &mut Vec<(AgentNo, Parcel)>) -> Result<(), AllocError>
        requires printable { All IsPrintableCome all.old.items }
        ensures all { OnOk result
            (all.new.items ≡ all.old.items ++ come_through (door_of self.old)) }
        ensures cleared { OnOk result (door_of self.new ≡ clears (door_of self.old)) }
        ensures printable { All IsPrintableCome all.new.items }
        ensures plug { plug_of self.new ≡ plug_of self.old }
    {
        while let Some(parcel) = self.inc.take() {
            all.push((self.other, parcel))?;
        }
        Ok(())
    }

    /// Lets the front of its queue through.
    fn push(&mut self, alloc: Global) -> Result<(), AllocError>
        ensures door { OnOk result (door_of self.new ≡ pushes (door_of self.old)) }
        ensures plug { plug_of self.new ≡ plug_of self.old }
    {
        self.queue.push(alloc, &mut self.out)
    }

    /// Nothing is to be pushed any more.
    fn drop_queue(&mut self)
        ensures door { door_of self.new ≡ drops (door_of self.old) }
        ensures plug { plug_of self.new ≡ plug_of self.old }
    {
        self.queue.clear();
    }

    /// Nothing is to be pushed, and nothing came.
    fn is_idle(&self) -> bool
        ensures { result ≡ is_idle (door_of self.now) }
    {
        self.queue.is_empty() && self.inc.is_empty()
    }

    /// Nothing was let through since its ends met, and nothing came.
    fn is_still(&self) -> bool
        ensures { result ≡ is_still (door_of self.now) }
    {
        self.out.is_empty() && self.inc.is_empty()
    }

    fn has_queued(&self, identity: &Identity) -> bool
        ensures { result ≡ has_queued identity.now (door_of self.now) }
    {
        self.queue.has(identity)
    }

    fn begin_round(&mut self)
        requires { HasMet (door_of self.old) }
        ensures { self.new ≡ self.old }
    {
        self.out.begin_round();
        self.inc.begin_round();
    }
}

/// Queues a parcel at the first link to an agent.
#[tactic(auto, using(crate::proofs::Joints::joints))]
fn queue_at(links: &mut [Link], to: AgentNo, parcel: Parcel) -> Result<(), AllocError>
    requires printable { IsPrintableParcel parcel }
    ensures doors { OnOk result (doors links.new ≡ queue_at to parcel (doors links.old)) }
    ensures plugs { plugs links.new ≡ plugs links.old }
{
    let Some((first, rest)) = links.split_first_mut() else {
        return Ok(());
    };
    if first.other == to {
        first.queue.put(parcel)?;
        Ok(())
    } else {
        queue_at(rest, to, parcel)
    }
}

/// Lets the fronts of all queues through.
fn push_all(alloc: Global, links: &mut [Link]) -> Result<(), AllocError>
    ensures doors { OnOk result (doors links.new ≡ map pushes (doors links.old)) }
    ensures plugs { plugs links.new ≡ plugs links.old }
{
    let Some((first, rest)) = links.split_first_mut() else {
        return Ok(());
    };
    first.push(alloc)?;
    push_all(alloc, rest)
}

/// Nothing is to be pushed any more.
fn drop_queues(links: &mut [Link])
    ensures doors { doors links.new ≡ map drops (doors links.old) }
    ensures plugs { plugs links.new ≡ plugs links.old }
{
    if let Some((first, rest)) = links.split_first_mut() {
        first.drop_queue();
        drop_queues(rest);
    }
}

/// Hands out what came, in order.
fn gather(links: &mut [Link], all: &mut Vec<(AgentNo, Parcel)>) -> Result<(), AllocError>
    requires printable { All IsPrintableCome all.old.items }
    ensures all { OnOk result (all.new.items ≡ all.old.items ++ lying (doors links.old)) }
    ensures cleared { OnOk result (doors links.new ≡ map clears (doors links.old)) }
    ensures printable { All IsPrintableCome all.new.items }
    ensures plugs { plugs links.new ≡ plugs links.old }
{
    let Some((first, rest)) = links.split_first_mut() else {
        return Ok(());
    };
    first.hand_out(all)?;
    gather(rest, all)
}

/// Whether a message of the identity is queued.
#[tactic(auto, using(crate::proofs::Joints::none_queued))]
fn is_queued(links: &[Link], identity: &Identity) -> bool
    ensures { result ≡ is_queued identity.now (doors links.now) }
{
    match links.split_first() {
        Some((first, rest)) => first.has_queued(identity) || is_queued(rest, identity),
        None => false,
    }
}

/// Whether nothing is to be pushed, and nothing came.
#[tactic(auto, using(crate::proofs::Joints::none_busy))]
fn are_idle(links: &[Link]) -> bool
    ensures { result ≡ all_idle (doors links.now) }
{
    match links.split_first() {
        Some((first, rest)) => first.is_idle() && are_idle(rest),
        None => true,
    }
}

/// Whether nothing was let through since the ends met, and nothing came.
#[tactic(auto, using(crate::proofs::Stillness::none_moved))]
fn are_still(links: &[Link]) -> bool
    ensures { result ≡ all_still (doors links.now) }
{
    match links.split_first() {
        Some((first, rest)) => first.is_still() && are_still(rest),
        None => true,
    }
}

/// The same of the first link to an agent, if there is one.
#[tactic(auto, using(crate::proofs::Stillness::none_still, crate::proofs::Stillness::still_here, crate::proofs::Stillness::still_there))]
fn is_still_to(links: &[Link], other: AgentNo) -> bool
    ensures { result ≡ is_still_to other (doors links.now) }
{
    match links.split_first() {
        Some((first, _)) if first.other == other => first.is_still(),
        Some((_, rest)) => is_still_to(rest, other),
        None => true,
    }
}

fn begin_rounds(links: &mut [Link])
    requires { All HasMet (doors links.old) }
    ensures { links.new ≡ links.old }
{
    if let Some((first, rest)) = links.split_first_mut() {
        first.begin_round();
        begin_rounds(rest);
    }
}

/// A link's ends meet those of the first link to an agent.
#[tactic(auto, using(crate::proofs::Joints::joints))]
fn meet_in(link: &mut Link, theirs: &mut [Link], number: AgentNo)
    requires { plug_to number (plugs theirs.old) ≡ Some (link.old.inc.wire, link.old.out.wire) }
    ensures door { let came = let_through number (doors theirs.old) in
        door_of link.new ≡ learns came (door_of link.old) }
    ensures doors { let came = link.old.out.parcels in
        doors theirs.new ≡ change_first number (learns came) (doors theirs.old) }
    ensures linked { plug_to number (plugs theirs.new)
        ≡ Some (link.new.inc.wire, link.new.out.wire) }
    ensures rest { (m : ℕ) → (m ≡ number → ⊥) →
        plug_to m (plugs theirs.new) ≡ plug_to m (plugs theirs.old) }
{
    let Some((first, rest)) = theirs.split_first_mut() else {
        return;
    };
    if first.other == number {
        first.inc.clear();
        link.inc.clear();
        meet(&mut link.out, &mut first.inc);
        meet(&mut first.out, &mut link.inc);
    } else {
        meet_in(link, rest, number);
    }
}

/// The first links of two agents to each other meet.
#[tactic(auto, using(crate::proofs::Joints::joints))]
fn meet_at(ours: &mut [Link], theirs: &mut [Link], their_number: AgentNo, number: AgentNo)
    requires { plug_to their_number (plugs ours.old)
        ≡ crossed (plug_to number (plugs theirs.old)) }
    ensures doors { let came = let_through number (doors theirs.old) in
        doors ours.new ≡ change_first their_number (learns came) (doors ours.old) }
    ensures their_doors { let came = let_through their_number (doors ours.old) in
        doors theirs.new ≡ change_first number (learns came) (doors theirs.old) }
    ensures linked { plug_to their_number (plugs ours.new)
        ≡ crossed (plug_to number (plugs theirs.new)) }
    ensures here { (m : ℕ) → (m ≡ their_number → ⊥) →
        plug_to m (plugs ours.new) ≡ plug_to m (plugs ours.old) }
    ensures there { (m : ℕ) → (m ≡ number → ⊥) →
        plug_to m (plugs theirs.new) ≡ plug_to m (plugs theirs.old) }
{
    let Some((first, rest)) = ours.split_first_mut() else {
        return;
    };
    if first.other == their_number {
        meet_in(first, theirs, number);
    } else {
        meet_at(rest, theirs, their_number, number);
    }
}

/// The links of an agent, in the order of the others' numbers.
#[derive(Drop)]
pub struct Links {
    items: Vec<Link>,
    /// Where it is set, nothing was let through since the ends met, and nothing came.
    still: bool,
}

impl Model for Links {
    ghost use Rattle.std.specs.Prelude.{◌≡◌, true};
    ghost use Rattle.agent_node.specs.Passing.{all_still};
    ghost use Rattle.agent_node.specs.Linked.{Linked, doors, plugs};

    ghost Value = { Linked };

    ghost view = { λ l. record { doors = doors l.items.items; plugs = plugs l.items.items } };

    ghost invariant = { λ l. l.still ≡ true → all_still (doors l.items.items) ≡ true };
}

impl Links {
    pub fn from_items(items: Vec<Link>) -> Self
        ensures doors { result.doors ≡ doors items.items }
        ensures plugs { result.plugs ≡ plugs items.items }
    {
        Links {
            items,
            still: false,
        }
    }

    /// Queues a parcel for an agent.
    #[tactic(auto, using(crate::proofs::Joints::same_others, crate::proofs::Joints::whole_again))]
    pub fn queue(&mut self, to: AgentNo, parcel: Parcel) -> Result<(), AllocError>
        requires printable { IsPrintableParcel parcel }
        ensures doors { OnOk result (self.new.doors ≡ queue_at to parcel self.old.doors) }
        ensures links { HasSameLinks self.old self.new }
    {
        self.still = false;
        queue_at(&mut self.items, to, parcel)
    }

    /// Queues a message for its addressee.
    pub fn say(&mut self, topology: &Topology, message: Message) -> Result<(), AllocError>
        requires printable { IsPrintable message }
        ensures doors { OnOk result
            (self.new.doors ≡ says (agent_of topology.now) message self.old.doors) }
        ensures links { HasSameLinks self.old self.new }
    {
        match topology.agent_of(message.addressee().bytes()) {
            Some(to) => self.queue(to, Parcel::Message(message)),
            None => Ok(()),
        }
    }

    /// Queues messages, in order, each for its addressee.
    #[tactic(auto, unfolding(crate::specs::Passing::says_all))]
    pub fn say_all(&mut self, topology: &Topology, messages: Vec<Message>) -> Result<(), AllocError>
        requires printable { All IsPrintable messages.items }
        ensures doors { OnOk result
            (self.new.doors ≡ says_all (agent_of topology.now) messages.items self.old.doors) }
        ensures links { HasSameLinks self.old self.new }
    {
        for message in messages {
            self.say(topology, message)?;
        }
        Ok(())
    }

    /// Lets the fronts of all queues through, as far as the links take them.
    #[tactic(auto, using(crate::proofs::Joints::same_others, crate::proofs::Joints::whole_again))]
    pub fn push_all(&mut self, alloc: Global) -> Result<(), AllocError>
        ensures doors { OnOk result (self.new.doors ≡ map pushes self.old.doors) }
        ensures links { HasSameLinks self.old self.new }
    {
        self.still = false;
        push_all(alloc, &mut self.items)?;
        self.still = are_still(&self.items);
        Ok(())
    }

    /// Nothing is to be pushed any more. What came lies there still.
    #[tactic(auto, using(crate::proofs::Joints::same_others, crate::proofs::Joints::whole_again))]
    pub fn drop_queues(&mut self)
        ensures doors { self.new.doors ≡ map drops self.old.doors }
        ensures links { HasSameLinks self.old self.new }
    {
        self.still = false;
        drop_queues(&mut self.items);
    }

    /// What came, by the senders' numbers and in order. It doesn't lie there any more.
    #[tactic(auto, using(crate::proofs::Joints::same_others, crate::proofs::Joints::whole_again))]
    pub fn gather(&mut self, alloc: Global) -> Result<Vec<(AgentNo, Parcel)>, AllocError>
        ensures all { IfOk result (λ xs. xs.items ≡ lying self.old.doors) }
        ensures printable { IfOk result (λ xs. All IsPrintableCome xs.items) }
        ensures cleared { OnOk result (self.new.doors ≡ map clears self.old.doors) }
        ensures links { HasSameLinks self.old self.new }
    {
        self.still = false;
        let mut all = Vec::new(alloc);
        gather(&mut self.items, &mut all)?;
        Ok(all)
    }

    /// Whether a message of the identity is queued.
    pub fn has_queued(&self, identity: &Identity) -> bool
        ensures { result ≡ is_queued identity.now self.now.doors }
    {
        is_queued(&self.items, identity)
    }

    /// Whether nothing is to be pushed, and nothing came.
    pub fn is_idle(&self) -> bool
        ensures { result ≡ all_idle self.now.doors }
    {
        are_idle(&self.items)
    }

    pub fn begin_round(&mut self)
        requires { All HasMet self.old.doors }
        ensures { self.new ≡ self.old }
    {
        begin_rounds(&mut self.items);
    }

    /// Whether nothing was let through to an agent since they met, and nothing came from it.
    #[tactic(auto, using(crate::proofs::Stillness::all_still_to))]
    fn is_still_to(&self, other: AgentNo) -> bool
        ensures { result ≡ is_still_to other self.now.doors }
    {
        self.still || is_still_to(&self.items, other)
    }

    /// The first links of two agents to each other meet, where something was let through or lies at an end.
    #[tactic(auto, using(crate::proofs::Stillness::still_ends_meet))]
    pub fn meet(&mut self, number: AgentNo, other: &mut Links, other_number: AgentNo)
        requires { plug_to other_number self.old.plugs
            ≡ crossed (plug_to number other.old.plugs) }
        ensures doors { let came = let_through number other.old.doors in
            self.new.doors ≡ change_first other_number (learns came) self.old.doors }
        ensures other_doors { let came = let_through other_number self.old.doors in
            other.new.doors ≡ change_first number (learns came) other.old.doors }
        ensures linked { plug_to other_number self.new.plugs
            ≡ crossed (plug_to number other.new.plugs) }
        ensures here { (m : ℕ) → (m ≡ other_number → ⊥) →
            plug_to m self.new.plugs ≡ plug_to m self.old.plugs }
        ensures there { (m : ℕ) → (m ≡ number → ⊥) →
            plug_to m other.new.plugs ≡ plug_to m other.old.plugs }
    {
        if self.is_still_to(other_number) && other.is_still_to(number) {
            return;
        }
        self.still = false;
        other.still = false;
        meet_at(&mut self.items, &mut other.items, other_number, number);
    }
}
