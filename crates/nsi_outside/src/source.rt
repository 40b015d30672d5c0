//! Where bytes come from.

ghost use Rattle.std.specs.Prelude.{◌≡◌, ◌<◌, ◌≤◌, ℕ, length, IfOk, OnOk, OnErr, is_err, List, Option, Some, drop, take, min};

use crate::plan::Plan;
use std::marker::Model;

/// A read failed. It took nothing, and the source is as before but for its count of faults.
#[derive(Clone, Copy, Debug, PartialEq, Eq)]
pub struct ReadFailed;

/// Where bytes come from.
pub trait Source {
    ghost use Rattle.nsi_outside.specs.Stream.{Reads};

    /// The bytes that are left, where they are told. A source that tells goes on telling.
    ghost left: { Self → Option (List ℕ) };

    /// How often it has failed.
    ghost faults: { Self → ℕ };

    /// Hands out the next bytes, into the front of the buffer, and says how many. None come only at the end.
    fn read(&mut self, buffer: &mut [u8]) -> Result<usize, ReadFailed>
        requires { 0 < length buffer.old }
        ensures within { IfOk result (λ n. n ≤ length buffer.old) }
        ensures bytes { Reads (left self.old) (left self.new) buffer.new result }
        ensures failed { OnErr result (faults self.old < faults self.new) }
        ensures counted { faults self.old ≤ faults self.new }
        ensures quiet { OnOk result (faults self.new ≡ faults self.old) };
}

/// Bytes in memory. The listed calls fail, once each.
#[derive(Debug, Drop)]
pub struct MemorySource {
    bytes: Vec<u8>,
    place: usize,
    plan: Plan,
}

impl Model for MemorySource {
    ghost use Rattle.std.specs.Prelude.{◌≤◌, ℕ, List, drop, vec_len};
    ghost use Rattle.nsi_outside.specs.Stream.{Told};

    ghost Value = { Told };

    ghost view = { λ s. record {
      bytes = drop s.place s.bytes.items;
      faults = s.plan.faults;
      calls = s.plan.calls;
      failing = s.plan.failing.items;
    } };

    ghost invariant = { λ s. (s.place ≤ vec_len s.bytes) × (s.plan.faults ≤ s.plan.calls) };
}

impl MemorySource {
    /// The bytes, of which the calls with these numbers, counted from 1, fail.
    pub fn new(bytes: Vec<u8>, failing: Vec<u64>) -> MemorySource
        ensures { result ≡
            record { bytes = bytes.items; faults = 0; calls = 0; failing = failing.items } }
    {
        MemorySource {
            bytes,
            place: 0,
            plan: Plan::new(failing),
        }
    }
}

impl Source for MemorySource {
    ghost use Rattle.nsi_outside.specs.Stream.{Reads, IsPlanned, IsCalled};

    ghost left = { λ s. Some s.bytes };

    ghost faults = { λ s. s.faults };

    fn read(&mut self, buffer: &mut [u8]) -> Result<usize, ReadFailed>
        requires { 0 < length buffer.old }
        ensures within { IfOk result (λ n. n ≤ length buffer.old) }
        ensures bytes { Reads (Some self.old.bytes) (Some self.new.bytes) buffer.new result }
        ensures failed { OnErr result (self.old.faults < self.new.faults) }
        ensures counted { self.old.faults ≤ self.new.faults }
        ensures quiet { OnOk result (self.new.faults ≡ self.old.faults) }
        ensures planned { IsPlanned self.old (is_err result) }
        ensures called { IsCalled self.old self.new }
    {
        if self.plan.call() {
            return Err(ReadFailed);
        }
        let n = copy_front(&self.bytes[self.place..], buffer);
        self.place += n;
        Ok(n)
    }
}

/// Copies as many bytes as there are and as fit, and says how many.
fn copy_front(left: &[u8], buffer: &mut [u8]) -> usize
    ensures within { result ≡ min (length left.now) (length buffer.old) }
    ensures bytes { take result buffer.new ≡ take result left.now }
{
    let n = left.len().min(buffer.len());
    buffer[..n].copy_from_slice(&left[..n]);
    n
}
