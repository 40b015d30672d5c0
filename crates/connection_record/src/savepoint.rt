//! How what is done to a record is taken back.

ghost use Rattle.std.specs.Prelude.{◌≡◌};
ghost use Rattle.connection_record.specs.declared.record.Record.{Record as RecordValue};
ghost use Rattle.connection_record.specs.Later.{IsLater};
ghost use Rattle.connection_record.specs.Saved.{saved_of};

use crate::record::Record;
use nsi_primitive::{Criteria, Id, Lsm, Psm, Rsm};

/// What changes of a record, and how long its lists are.
#[derive(Clone, Copy, Debug)]
pub struct Savepoint {
    pub pending: Option<Criteria>,
    pub attempt: Option<Id>,
    pub rsm: Rsm,
    pub psm: Psm,
    pub lsm: Lsm,
    pub mixed: bool,
    pub reserve_request: Option<Id>,
    pub provision_request: Option<Id>,
    pub lifecycle_request: Option<Id>,
    pub deadline: Option<u64>,
    pub committed: usize,
    pub notices: usize,
    pub results: usize,
}

impl Record {
    /// What `restore` needs to go back to the record as it is now.
    pub fn save(&self) -> Savepoint
        ensures { result ≡ saved_of self.now }
    {
        Savepoint {
            pending: self.pending,
            attempt: self.attempt,
            rsm: self.rsm,
            psm: self.psm,
            lsm: self.lsm,
            mixed: self.mixed,
            reserve_request: self.reserve_request,
            provision_request: self.provision_request,
            lifecycle_request: self.lifecycle_request,
            deadline: self.deadline,
            committed: self.committed.items().len(),
            notices: self.notices.items().len(),
            results: self.results.items().len(),
        }
    }

    /// Goes back to what was saved. It takes no memory.
    pub fn restore(&mut self, saved: &Savepoint)
        ensures { (r : RecordValue) → saved.now ≡ saved_of r → IsLater r self.old → self.new ≡ r }
    {
        self.pending = saved.pending;
        self.attempt = saved.attempt;
        self.rsm = saved.rsm;
        self.psm = saved.psm;
        self.lsm = saved.lsm;
        self.mixed = saved.mixed;
        self.reserve_request = saved.reserve_request;
        self.provision_request = saved.provision_request;
        self.lifecycle_request = saved.lifecycle_request;
        self.deadline = saved.deadline;
        self.committed.shorten(saved.committed);
        self.notices.shorten(saved.notices);
        self.results.shorten(saved.results);
    }
}
