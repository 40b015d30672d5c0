//! An entry of a provider, with the work that waits then.

ghost use Rattle.std.specs.Prelude.{◌≡◌, ◌<◌, ◌≤◌, ◌+◌, ◌++◌, ◌∷◌, [], All, IfOk, OnOk, true};
ghost use Rattle.nsi_primitive.specs.Printable.{IsPrintable, IsPrintableInput, IsPrintableEntry};
ghost use Rattle.nsi_primitive.specs.declared.entry.Input.TheVariants.{Work as WorkInput};
ghost use Rattle.provider_agent.specs.Setting.{own_stp};
ghost use Rattle.provider_agent.specs.Runs.{after_all};
ghost use Rattle.provider_agent.specs.Steps.{after, may_take};
ghost use Rattle.provider_run.specs.Works.{all_works, now_at, with_works};

use nsi_base::RecordNo;
use nsi_primitive::{Entry, Input, Machine, Message};
use provider_agent::Provider;
use std::alloc::{AllocError, Global};
use stp_topology::Topology;

/// Entries that a provider has taken, and the messages that they cause, in order.
#[derive(Drop)]
pub struct Taken {
    pub entries: Vec<Entry>,
    pub messages: Vec<Message>,
}

impl Taken {
    /// Takes an entry more.
    fn take(
        &mut self,
        alloc: Global,
        provider: &mut Provider,
        topology: &Topology,
        entry: Entry,
    ) -> Result<(), AllocError>
        requires may_take { may_take provider.old.state entry ≡ true }
        requires input { IsPrintableInput entry.input }
        ensures state { let p = provider.old in
            let then = after p.setting (own_stp topology.now p.setting.number) p.state entry in
            OnOk result (provider.new ≡ record p { state = then.state }) }
        ensures messages { let p = provider.old in
            let then = after p.setting (own_stp topology.now p.setting.number) p.state entry in
            OnOk result (self.new.messages.items ≡ self.old.messages.items ++ then.out) }
        ensures entries { OnOk result
            (self.new.entries.items ≡ self.old.entries.items ++ entry ∷ []) }
        ensures printable { OnOk result
            (All IsPrintable self.old.messages.items → All IsPrintable self.new.messages.items) }
        ensures entries_printable { OnOk result
            (All IsPrintableEntry self.old.entries.items →
            All IsPrintableEntry self.new.entries.items) }
    {
        let mut out = provider.next(alloc, topology, &entry)?;
        self.messages.append(&mut out)?;
        self.entries.push(entry)?;
        Ok(())
    }

    /// Does the work of a machine of a record, now.
    fn take_work(
        &mut self,
        alloc: Global,
        provider: &mut Provider,
        topology: &Topology,
        work: (RecordNo, Machine),
    ) -> Result<(), AllocError>
        requires few_taken { provider.old.state.taken < 4194304 }
        ensures state { let p = provider.old in
            let entry = now_at p.state (WorkInput work.0 work.1) in
            let then = after p.setting (own_stp topology.now p.setting.number) p.state entry in
            OnOk result (provider.new ≡ record p { state = then.state }) }
        ensures messages { let p = provider.old in
            let entry = now_at p.state (WorkInput work.0 work.1) in
            let then = after p.setting (own_stp topology.now p.setting.number) p.state entry in
            OnOk result (self.new.messages.items ≡ self.old.messages.items ++ then.out) }
        ensures entries { let p = provider.old in
            OnOk result (self.new.entries.items
            ≡ self.old.entries.items ++ now_at p.state (WorkInput work.0 work.1) ∷ []) }
        ensures printable { OnOk result
            (All IsPrintable self.old.messages.items → All IsPrintable self.new.messages.items) }
        ensures entries_printable { OnOk result
            (All IsPrintableEntry self.old.entries.items →
            All IsPrintableEntry self.new.entries.items) }
    {
        let (number, machine) = work;
        let entry = Entry {
            second: provider.now(),
            input: Input::Work { number, machine },
        };
        self.take(alloc, provider, topology, entry)
    }

    /// Does the work that waits, one after another.
    fn take_works(
        &mut self,
        alloc: Global,
        provider: &mut Provider,
        topology: &Topology,
    ) -> Result<(), AllocError>
        requires few { provider.old.state.taken ≤ 2000001 }
        ensures state { let p = provider.old in
            let stp_of = own_stp topology.now p.setting.number in
            let works = all_works p.setting stp_of p.state in
            let then = after_all p.setting stp_of p.state works in
            OnOk result (provider.new ≡ record p { state = then.state }) }
        ensures messages { let p = provider.old in
            let stp_of = own_stp topology.now p.setting.number in
            let works = all_works p.setting stp_of p.state in
            let then = after_all p.setting stp_of p.state works in
            OnOk result (self.new.messages.items ≡ self.old.messages.items ++ then.out) }
        ensures entries { let p = provider.old in
            let works = all_works p.setting (own_stp topology.now p.setting.number) p.state in
            OnOk result (self.new.entries.items ≡ self.old.entries.items ++ works) }
        ensures printable { OnOk result
            (All IsPrintable self.old.messages.items → All IsPrintable self.new.messages.items) }
        ensures entries_printable { OnOk result
            (All IsPrintableEntry self.old.entries.items →
            All IsPrintableEntry self.new.entries.items) }
    {
        provider.facts();
        while let Some(work) = provider.waiting_work() {
            self.take_work(alloc, provider, topology, work)?;
        }
        Ok(())
    }
}

/// Takes an entry, and then all work that waits.
pub fn take_with_works(
    alloc: Global,
    provider: &mut Provider,
    topology: &Topology,
    entry: &Entry,
) -> Result<Taken, AllocError>
    requires few { provider.old.state.taken ≤ 2000000 }
    requires may_take { may_take provider.old.state entry.now ≡ true }
    requires printable { IsPrintableInput entry.now.input }
    ensures state { let p = provider.old in
        let stp_of = own_stp topology.now p.setting.number in
        let es = with_works p.setting stp_of p.state entry.now in
        let then = after_all p.setting stp_of p.state es in
        OnOk result (provider.new ≡ record p { state = then.state }) }
    ensures messages { let p = provider.old in
        let stp_of = own_stp topology.now p.setting.number in
        let es = with_works p.setting stp_of p.state entry.now in
        IfOk result (λ b. b.messages.items ≡ (after_all p.setting stp_of p.state es).out) }
    ensures entries { let p = provider.old in
        let es = with_works p.setting (own_stp topology.now p.setting.number) p.state entry.now in
        IfOk result (λ b. b.entries.items ≡ es) }
    ensures printable { IfOk result (λ b. All IsPrintable b.messages.items) }
    ensures entries_printable { IfOk result (λ b. All IsPrintableEntry b.entries.items) }
{
    let mut taken = Taken {
        entries: Vec::new(alloc),
        messages: Vec::new(alloc),
    };
    let entry = entry.copy()?;
    taken.take(alloc, provider, topology, entry)?;
    taken.take_works(alloc, provider, topology)?;
    Ok(taken)
}
