//! A folder, in which each agent has a file.

ghost use Rattle.std.specs.Prelude.{◌≡◌, ℕ, List, Option, Some, IfSome, IfOk, OnOk, if◌then◌else◌, bytes_eq};
ghost use Rattle.nsi_disk.specs.Disk.{seen};
ghost use Rattle.file_shelf.specs.Outcomes.{lock_outcome};
ghost use Rattle.file_shelf.specs.Told.{IsOpened, claimed, entered};

use crate::file::DiskFile;
use nsi_base::Name;
use nsi_disk::ShelfError;
use std::alloc::Global;
use std::fs::TryLockError;
use std::io;

/// A folder of files by the name of their agent.
pub trait Folder {
    type File: DiskFile + Drop;

    /// What the file of a name reads when it is opened, where that is told. One that is missing reads nothing.
    ghost holds: { Self → List ℕ → Option (List ℕ) };

    /// Opens the file of this name to read and to write, and makes it where it is missing.
    fn open(&self, alloc: Global, name: &Name) -> Result<Self::File, ShelfError>
        ensures { IfOk result (λ f. IsOpened (holds self.now name.now) (Self.File.told f)) };

    /// Asks that no other program gets it.
    fn lock(&self, file: &mut Self::File) -> Result<(), TryLockError>
        ensures { OnOk (lock_outcome result)
            (Self.File.told file.new ≡ claimed (Self.File.told file.old)) };

    /// After this a crash leaves the file in the folder.
    fn sync(&self, file: &mut Self::File) -> io::Result<()>
        ensures { OnOk result (Self.File.told file.new ≡ entered (Self.File.told file.old)) };

    /// Takes the file of this name back.
    fn close(&mut self, name: &Name, file: Self::File)
        ensures { IfSome (Self.File.told file) (λ t. (n : List ℕ) → holds self.new n
            ≡ (if bytes_eq name.now n then Some (seen t.past) else holds self.old n)) };
}
