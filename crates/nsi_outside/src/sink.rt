//! Where bytes go.

ghost use Rattle.std.specs.Prelude.{◌≡◌, ◌<◌, ◌≤◌, ℕ, length, IfOk, OnErr, OnOk, IsErrOf, List, Option, Some, []};
ghost use Rattle.nsi_outside.specs.Stream.{WritesAll, WritesFront};

use crate::plan::Plan;
use std::alloc::Global;
use std::marker::Model;

/// Why a write was not made. It appended nothing.
#[derive(Clone, Copy, Debug, PartialEq, Eq)]
pub enum SinkError {
    Failed,
    NoMemory,
}

/// Where bytes go.
pub trait Sink {
    ghost use Rattle.nsi_outside.specs.Stream.{Writes};

    /// What was written, where it is told. A sink that tells goes on telling.
    ghost content: { Self → Option (List ℕ) };

    /// How often it has failed.
    ghost faults: { Self → ℕ };

    /// Appends a front of the piece, and says how long it was.
    fn write(&mut self, piece: &[u8]) -> Result<usize, SinkError>
        requires { 0 < length piece.now }
        ensures positive { IfOk result (λ n. 0 < n) }
        ensures within { IfOk result (λ n. n ≤ length piece.now) }
        ensures bytes { Writes (content self.old) (content self.new) piece.now result }
        ensures failed { IsErrOf result SinkError.Failed → faults self.old < faults self.new }
        ensures counted { faults self.old ≤ faults self.new }
        ensures quiet { OnOk result (faults self.new ≡ faults self.old) }
        ensures memory { IsErrOf result SinkError.NoMemory → faults self.new ≡ faults self.old };
}

/// Bytes in memory. The listed calls fail, once each.
#[derive(Debug, Drop)]
pub struct MemorySink {
    bytes: Vec<u8>,
    plan: Plan,
}

impl Model for MemorySink {
    ghost use Rattle.std.specs.Prelude.{◌≤◌, ℕ, List};
    ghost use Rattle.nsi_outside.specs.Stream.{Told};

    ghost Value = { Told };

    ghost view = { λ s. record {
      bytes = s.bytes.items;
      faults = s.plan.faults;
      calls = s.plan.calls;
      failing = s.plan.failing.items;
    } };

    ghost invariant = { λ s. s.plan.faults ≤ s.plan.calls };
}

impl MemorySink {
    /// Nothing yet. The calls with these numbers, counted from 1, fail.
    pub fn new(alloc: Global, failing: Vec<u64>) -> MemorySink
        ensures { result ≡ record { bytes = []; faults = 0; calls = 0; failing = failing.items } }
    {
        MemorySink {
            bytes: Vec::new(alloc),
            plan: Plan::new(failing),
        }
    }

    pub fn bytes(&self) -> &[u8]
        ensures { result.now ≡ self.now.bytes }
    {
        &self.bytes
    }
}

impl Sink for MemorySink {
    ghost use Rattle.nsi_outside.specs.Stream.{Writes, IsPlanned, IsCalled, has_failed};

    ghost content = { λ s. Some s.bytes };

    ghost faults = { λ s. s.faults };

    fn write(&mut self, piece: &[u8]) -> Result<usize, SinkError>
        requires { 0 < length piece.now }
        ensures positive { IfOk result (λ n. 0 < n) }
        ensures within { IfOk result (λ n. n ≤ length piece.now) }
        ensures bytes { Writes (Some self.old.bytes) (Some self.new.bytes) piece.now result }
        ensures failed { IsErrOf result SinkError.Failed → self.old.faults < self.new.faults }
        ensures counted { self.old.faults ≤ self.new.faults }
        ensures quiet { OnOk result (self.new.faults ≡ self.old.faults) }
        ensures memory { IsErrOf result SinkError.NoMemory → self.new.faults ≡ self.old.faults }
        ensures planned { IsPlanned self.old (has_failed result) }
        ensures called { IsCalled self.old self.new }
    {
        if self.plan.call() {
            return Err(SinkError::Failed);
        }
        if self.bytes.extend_from_slice(piece).is_err() {
            return Err(SinkError::NoMemory);
        }
        Ok(piece.len())
    }
}

/// Writes all of the bytes, or after an error some front of them.
pub fn write_all<K: Sink>(out: &mut K, bytes: &[u8]) -> Result<(), SinkError>
    ensures all { OnOk result (WritesAll (K.content out.old) (K.content out.new) bytes.now) }
    ensures front { OnErr result (WritesFront (K.content out.old) (K.content out.new) bytes.now) }
    ensures failed { IsErrOf result SinkError.Failed → K.faults out.old < K.faults out.new }
    ensures counted { K.faults out.old ≤ K.faults out.new }
    ensures quiet { OnOk result (K.faults out.new ≡ K.faults out.old) }
    ensures memory { IsErrOf result SinkError.NoMemory → K.faults out.new ≡ K.faults out.old }
{
    let mut written = 0;
    while written < bytes.len() {
        let (_, rest) = bytes.split_at(written);
        written += out.write(rest)?;
    }
    Ok(())
}
