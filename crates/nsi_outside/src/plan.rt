//! Which calls of a form in memory fail.

ghost use Rattle.std.specs.Prelude.{◌≡◌, ◌≤◌, ◌+◌, if◌then◌else◌};
ghost use Rattle.nsi_outside.specs.Stream.{FailsAsListed, one_call_more};

/// The calls that are to fail, counted from 1, how many calls there were, and how many of them failed.
#[derive(Debug, Drop)]
pub struct Plan {
    pub calls: u64,
    pub failing: Vec<u64>,
    pub faults: u64,
}

impl Plan {
    /// No call yet.
    pub fn new(failing: Vec<u64>) -> Plan
        ensures { result ≡ record { calls = 0; failing = failing; faults = 0 } }
    {
        Plan {
            calls: 0,
            failing,
            faults: 0,
        }
    }

    /// Counts a call, and says whether it fails.
    pub fn call(&mut self) -> bool
        requires { self.old.faults ≤ self.old.calls }
        ensures planned { FailsAsListed self.old.calls self.old.failing.items result }
        ensures called { self.new.calls ≡ one_call_more self.old.calls }
        ensures failing { self.new.failing ≡ self.old.failing }
        ensures faults { self.new.faults
            ≡ (if result then self.old.faults + 1 else self.old.faults) }
        ensures within { self.new.faults ≤ self.new.calls }
    {
        if self.calls == u64::MAX {
            return false;
        }
        self.calls += 1;
        if !self.failing.contains(&self.calls) {
            return false;
        }
        self.faults += 1;
        true
    }
}
