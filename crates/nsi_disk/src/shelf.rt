//! Disks by the name of their agent.

ghost use Rattle.std.specs.Prelude.{◌≡◌, ◌≤◌, ◌<◌, List, ℕ, Option, Some, Bool, true, false, length, IfSome, IfOk, OnOk, OnErr, IsErrOf, if◌then◌else◌, bytes_eq};
ghost use Rattle.nsi_disk.specs.Disk.{Fresh, MayLeave, seen};

use crate::disk::Disk;
use crate::plan::Stop;
use nsi_base::Name;
use std::alloc::{AllocError, Global};

/// Why a shelf gave no disk. It is as before but for its count of faults; a disk that was to be fetched again is lost, and
/// its stops are counted.
#[derive(Clone, Copy, Debug, PartialEq, Eq)]
pub enum ShelfError {
    Failed,
    NoMemory,
}

impl From<AllocError> for ShelfError {
    ghost use Rattle.nsi_disk.specs.declared.shelf.ShelfError.TheVariants.{NoMemory as NoRoom};
    ghost use Rattle.std.specs.Prelude.{◌≡◌};

    ghost from_gives = { λ _ e. e ≡ NoRoom };

    fn from(_: AllocError) -> Self {
        ShelfError::NoMemory
    }
}

/// Where disks come from and go back to.
pub trait Shelf {
    ghost use Rattle.nsi_disk.specs.ShelfCounts.{Raised, RaisedFrom};
    ghost use Rattle.nsi_disk.specs.declared.shelf.ShelfError.TheVariants.{Failed};

    type Disk: Disk;

    /// What it holds under a name, where that is told; nothing is an empty file.
    ghost holds: { Self → List ℕ → Option (List ℕ) };

    /// The names of which a disk may be given back. Each that was fetched is one of them.
    ghost listed: { Self → List ℕ → Bool };

    ghost faults: { Self → ℕ };

    ghost stops: { Self → ℕ };

    /// The disk of this name, which stops where it is planned, and nowhere else. A shelf that can't plan stops ignores the plan.
    fn fetch(
        &mut self,
        alloc: Global,
        name: &Name,
        planned: &[Stop],
    ) -> Result<Self::Disk, ShelfError>
        ensures content { IfOk result (λ d. IfSome (holds self.old name.now) (λ bytes.
            Self.Disk.history d ≡ Some (Fresh bytes))) }
        ensures runs { IfOk result (λ d. (Self.Disk.meter d).stopped ≡ false) }
        ensures counts { IfOk result (λ d.
            ((Self.Disk.meter d).faults ≡ 0) × ((Self.Disk.meter d).stops ≡ 0)) }
        ensures planned { IfOk result (λ d. (Self.Disk.meter d).planned ≤ length planned.now) }
        ensures listed { OnOk result (listed self.new name.now ≡ true) }
        ensures stays { (n : List ℕ) → listed self.old n ≡ true → listed self.new n ≡ true }
        ensures unlisted { OnErr result ((n : List ℕ) → listed self.new n ≡ listed self.old n) }
        ensures same { (n : List ℕ) → holds self.new n ≡ holds self.old n }
        ensures failed { IsErrOf result Failed → faults self.old < faults self.new }
        ensures faults { faults self.old ≤ faults self.new }
        ensures quiet { OnOk result (faults self.new ≡ faults self.old) }
        ensures stops { stops self.new ≡ stops self.old };

    /// The disk after a crash now, whether it was stopped or not, with its plan and its counts.
    fn fetch_again(
        &mut self,
        alloc: Global,
        name: &Name,
        disk: Self::Disk,
    ) -> Result<Self::Disk, ShelfError>
        ensures image { IfOk result (λ d. IfSome (Self.Disk.history disk) (λ h.
            (c : List ℕ) × MayLeave h c × (Self.Disk.history d ≡ Some (Fresh c)))) }
        ensures runs { IfOk result (λ d. (Self.Disk.meter d).stopped ≡ false) }
        ensures counts { IfOk result (λ d.
            ((Self.Disk.meter d).faults ≡ (Self.Disk.meter disk).faults)
            × ((Self.Disk.meter d).stops ≡ (Self.Disk.meter disk).stops)) }
        ensures planned { IfOk result (λ d.
            (Self.Disk.meter d).planned ≡ (Self.Disk.meter disk).planned) }
        ensures stays { (n : List ℕ) → listed self.new n ≡ listed self.old n }
        ensures same { (n : List ℕ) → holds self.new n ≡ holds self.old n }
        ensures failed { IsErrOf result Failed → faults self.old < faults self.new }
        ensures faults { faults self.old ≤ faults self.new }
        ensures quiet { OnOk result (faults self.new ≡ faults self.old) }
        ensures stops { OnOk result (stops self.new ≡ stops self.old) }
        ensures lost { OnErr result
            (RaisedFrom (stops self.old) (Self.Disk.meter disk).stops (stops self.new)) };

    /// Puts the disk back under this name: a disk that runs with what it reads, a stopped one with one of its images. The
    /// shelf's counts grow by the disk's.
    fn give_back(&mut self, name: &Name, disk: Self::Disk)
        requires { listed self.old name.now ≡ true }
        ensures held { IfSome (Self.Disk.history disk) (λ h.
            (c : List ℕ) × MayLeave h c
            × ((Self.Disk.meter disk).stopped ≡ false → c ≡ seen h)
            × ((n : List ℕ) → holds self.new n
            ≡ (if bytes_eq name.now n then Some c else holds self.old n))) }
        ensures stays { (n : List ℕ) → listed self.old n ≡ true → listed self.new n ≡ true }
        ensures faults { Raised (faults self.old) (Self.Disk.meter disk).faults (faults self.new) }
        ensures stops { Raised (stops self.old) (Self.Disk.meter disk).stops (stops self.new) };
}
