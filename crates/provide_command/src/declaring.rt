//! The topology is declared, line by line.

ghost use Rattle.std.specs.Prelude.{◌≡◌, ◌<◌, ◌+◌, ℕ, Ok, [], true, IfOk, IfErr, OnOk, OnErr};
ghost use Rattle.line_reader.specs.Held.{budget, to_come, rest_of};
ghost use Rattle.stp_topology.specs.Text.{of_line};
ghost use Rattle.provide_command.specs.Lines.{long_line};
ghost use Rattle.provide_command.specs.Outcome.{declared, topology_fault};
ghost use Rattle.provide_command.specs.Phases.{Reading, in_topology};
ghost use Rattle.provide_command.specs.Promise.{Writes, WritesFront, ended};
ghost use Rattle.provide_command.specs.UpTo.{HaltsWith, HaltsAt};
ghost use Rattle.provide_command.specs.Writes.{CountsFaults};
ghost use Rattle.nsi_base.specs.Range.{greatest_input};
ghost use Rattle.provide_command.specs.declared.output.Halt.TheVariants.{Outside};
ghost use Rattle.provide_command.specs.Declares.{DeclaresLine, DeclaresNext, goes_further, HasFaultCounts, ComesTo, LeavesFew};

use crate::output::{Fault, write_text};
use crate::status::Ending;
use command_limits::EventLimit;
use fault_lines::topology_fault;
use line_reader::{LineReader, Next, ReadError};
use nsi_base::AgentNo;
use nsi_outside::{Sink, Source};
use std::alloc::Global;
use stp_topology::{LineRefusal, Taken, Topology, TopologyFault};

/// What a line of the topology makes.
#[derive(Drop)]
pub(crate) enum Declared {
    /// There are more lines to come.
    More(Topology),
    /// It is whole, and this is its first provider.
    Whole(Topology, AgentNo),
    End(Ending),
}

/// Writes a fault of the topology.
fn refuse<K: Sink>(
    alloc: Global,
    out: &mut K,
    number: u64,
    fault: TopologyFault,
) -> Result<Declared, Fault>
    ensures ended { IfOk result (λ d. d ≡ Declared.End Ending.BadTopology) }
    ensures all { OnOk result
        (Writes (K.content out.old) (K.content out.new) (topology_fault number fault)) }
    ensures front { OnErr result
        (WritesFront (K.content out.old) (K.content out.new) (topology_fault number fault)) }
    ensures faults { CountsFaults result (K.faults out.old) (K.faults out.new) }
{
    let Ok(text) = topology_fault(alloc, number, fault) else {
        return Err(Fault::NoMemory);
    };
    write_text(out, &text)?;
    Ok(Declared::End(Ending::BadTopology))
}

/// The first provider of a whole topology is served.
fn whole<K: Sink>(
    alloc: Global,
    out: &mut K,
    number: u64,
    topology: Topology,
) -> Result<Declared, Fault>
    ensures whole { (read : Reading) (most : ℕ) →
        IfOk result
        (DeclaresLine read most number (Ok (Taken.Whole topology)) (K.content out.old)
        (K.content out.new)) }
    ensures front { (read : Reading) (most : ℕ) →
        OnErr result
        (WritesFront (K.content out.old) (K.content out.new)
        (declared read most number (Ok (Taken.Whole topology))).text) }
    ensures faults { CountsFaults result (K.faults out.old) (K.faults out.new) }
{
    match topology.first_provider() {
        Some(provider) => Ok(Declared::Whole(topology, provider)),
        None => refuse(alloc, out, number, TopologyFault::Empty),
    }
}

/// Takes a line of the topology.
fn declare<K: Sink>(
    alloc: Global,
    out: &mut K,
    number: u64,
    topology: Topology,
    line: &[u8],
) -> Result<Declared, Fault>
    ensures line { (read : Reading) (most : ℕ) →
        IfOk result
        (DeclaresLine read most number (of_line topology line.now) (K.content out.old)
        (K.content out.new)) }
    ensures front { (read : Reading) (most : ℕ) →
        OnErr result
        (WritesFront (K.content out.old) (K.content out.new)
        (declared read most number (of_line topology line.now)).text) }
    ensures faults { CountsFaults result (K.faults out.old) (K.faults out.new) }
{
    match topology.take_line(line) {
        Ok(Taken::More(topology)) => Ok(Declared::More(topology)),
        Ok(Taken::Whole(topology)) => whole(alloc, out, number, topology),
        Err(LineRefusal::Fault(fault)) => refuse(alloc, out, number, fault),
        Err(LineRefusal::NoMemory) => Err(Fault::NoMemory),
    }
}

/// Takes the next line of the topology, or tells that there is none.
fn declare_next<S: Source, K: Sink>(
    alloc: Global,
    input: &mut S,
    reader: &mut LineReader,
    out: &mut K,
    number: u64,
    topology: Topology,
) -> Result<Declared, Fault>
    ensures next { (read : Reading) (most : ℕ) →
        IfOk result
        (DeclaresNext read most number topology (K.content out.old)
        (rest_of reader.old (S.left input.old)) (to_come reader.old (S.left input.old))
        (K.content out.new) (rest_of reader.new (S.left input.new)) (to_come reader.new (S.left input.new))) }
    ensures shrinks { IfOk result (λ d. goes_further d ≡ true →
        budget reader.new < budget reader.old) }
    ensures halts { (read : Reading) (most : ℕ) →
        IfErr result
        (λ fault.
        HaltsWith read (Outside fault) number
        (in_topology (record { topology = topology; most = most })) (K.content out.old)
        (rest_of reader.old (S.left input.old))
        (to_come reader.old (S.left input.old)) reader.new (S.left input.new) (K.content out.new)) }
    ensures counts { HasFaultCounts result (S.faults input.old) (S.faults input.new)
        (K.faults out.old) (K.faults out.new) }
{
    match reader.next(alloc, input) {
        Err(ReadError::Failed) => Err(give_up(topology, Fault::Read)),
        Err(ReadError::NoMemory) => Err(give_up(topology, Fault::NoMemory)),
        Ok(Next::Line(line)) => declare(alloc, out, number, topology, &line),
        Ok(Next::End) => {
            drop(topology);
            refuse(alloc, out, number, TopologyFault::Word)
        }
        Ok(Next::Long) => {
            drop(topology);
            long(out)
        }
    }
}

/// Writes that there are more bytes than are taken.
fn long<K: Sink>(out: &mut K) -> Result<Declared, Fault>
    ensures ended { IfOk result (λ d. d ≡ Declared.End Ending.Long) }
    ensures all { OnOk result (Writes (K.content out.old) (K.content out.new) long_line) }
    ensures front { OnErr result (WritesFront (K.content out.old) (K.content out.new) long_line) }
    ensures faults { CountsFaults result (K.faults out.old) (K.faults out.new) }
{
    write_text(out, b"fault long\n")?;
    Ok(Declared::End(Ending::Long))
}

/// Lets go of a topology, and hands on the fault.
fn give_up(topology: Topology, fault: Fault) -> Fault
    ensures { result ≡ fault }
{
    drop(topology);
    fault
}

/// A whole topology, its first provider, how many events there may be, and the number of the line `---`.
#[derive(Drop)]
pub(crate) struct Begun {
    pub(crate) topology: Topology,
    pub(crate) provider: AgentNo,
    pub(crate) most: EventLimit,
    pub(crate) number: u64,
}

/// What the lines of the topology come to.
#[derive(Drop)]
pub(crate) enum Declaration {
    Begun(Begun),
    Ended(Ending),
}

/// Takes the lines of the topology.
pub(crate) fn declare_all<S: Source, K: Sink>(
    alloc: Global,
    input: &mut S,
    reader: &mut LineReader,
    out: &mut K,
    most: EventLimit,
) -> Result<Declaration, Fault>
    requires { reader.old ≡ record { bytes = []; room = greatest_input } }
    ensures comes_to { IfOk result
        (ComesTo most (K.content out.old) (S.left input.old) (K.content out.new)
        (rest_of reader.new (S.left input.new)) (to_come reader.new (S.left input.new))) }
    ensures few { IfOk result (LeavesFew (budget reader.new)) }
    ensures halts { (read : Reading) →
        IfErr result
        (λ fault.
        HaltsAt read most (K.content out.old) (S.left input.old) (Outside fault) reader.new
        (S.left input.new) (K.content out.new)) }
    ensures counts { HasFaultCounts result (S.faults input.old) (S.faults input.new)
        (K.faults out.old) (K.faults out.new) }
{
    let mut topology = Topology::new(alloc);
    let mut number = 1;
    'lines: loop {
        match declare_next(alloc, input, reader, out, number, topology) {
            Ok(Declared::More(next)) => {
                topology = next;
                number += 1;
            }
            Ok(Declared::Whole(topology, provider)) => {
                return Ok(Declaration::Begun(Begun {
                    topology,
                    provider,
                    most,
                    number,
                }));
            }
            Ok(Declared::End(ending)) => return Ok(Declaration::Ended(ending)),
            Err(fault) => return Err(fault),
        }
    }
}
