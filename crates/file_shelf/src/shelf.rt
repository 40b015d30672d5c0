//! A shelf over a folder of files.

ghost use Rattle.std.specs.Prelude.{◌≡◌, IfOk};
ghost use Rattle.file_shelf.specs.Tallies.{refusal, refused};
ghost use Rattle.file_shelf.specs.Told.{IsReady};

use crate::adapters::StdFolder;
use crate::disk::FileDisk;
use crate::file::DiskFile;
use crate::folder::Folder;
use crate::outcome::{fetch_outcome, lock_outcome};
use nsi_base::Name;
use nsi_disk::{Shelf, ShelfError, Stop};
use std::alloc::Global;
use std::marker::Model;

/// The files of a folder, one for each agent. A file that is missing is made. While a disk is out no other program, and no
/// second fetch, gets it, where the file system has locks.
#[derive(Drop)]
pub struct FolderShelf<D> {
    folder: D,
    faults: u64,
}

/// The files of a folder of the system.
pub type FileShelf<'a> = FolderShelf<StdFolder<'a>>;

/// The file of this name, for this program alone. From now on a crash leaves what is read, whatever a program that was killed
/// before had written or made.
fn open_alone<D: Folder>(folder: &D, alloc: Global, name: &Name) -> Result<D::File, ShelfError>
    ensures { IfOk result (λ f. IsReady (D.Folder.holds folder.now name.now)
        (D.File.told f)) }
{
    let mut file = folder.open(alloc, name)?;
    lock_outcome(folder.lock(&mut file))?;
    fetch_outcome(file.settle())?;
    fetch_outcome(folder.sync(&mut file))?;
    Ok(file)
}

impl<'a> FolderShelf<StdFolder<'a>> {
    ghost use Rattle.file_shelf.specs.ShelfOf.{folder_of, path_of, faults_of};

    /// The files in the folder of this path.
    pub fn new(rt: &'a HostRuntime, path: &'a str) -> FolderShelf<StdFolder<'a>>
        ensures path { path_of (folder_of result) ≡ path.now }
        ensures faults { faults_of result ≡ 0 }
    {
        FolderShelf::over(StdFolder::new(rt, path))
    }
}

impl<D> FolderShelf<D> {
    ghost use Rattle.file_shelf.specs.ShelfOf.{folder_of, faults_of};

    /// The files in this folder.
    pub fn over(folder: D) -> FolderShelf<D>
        ensures folder { folder_of result ≡ folder }
        ensures faults { faults_of result ≡ 0 }
    {
        FolderShelf { folder, faults: 0 }
    }

    /// Counts a fault, and tells why there is no disk.
    fn refuse(&mut self, error: ShelfError) -> ShelfError
        ensures answer { result ≡ refusal (faults_of self.old) error }
        ensures counted { faults_of self.new ≡ refused (faults_of self.old) error }
        ensures folder { folder_of self.new ≡ folder_of self.old }
    {
        match error {
            ShelfError::Failed if self.faults < u64::MAX => {
                self.faults += 1;
                ShelfError::Failed
            }
            ShelfError::Failed | ShelfError::NoMemory => ShelfError::NoMemory,
        }
    }
}

impl<D: Folder> Shelf for FolderShelf<D> {
    ghost use Rattle.std.specs.Prelude.{true};

    type Disk = FileDisk<D::File>;

    ghost holds = { λ s name. D.Folder.holds s.folder name };

    ghost listed = { λ _ _. true };

    ghost faults = { λ s. s.faults };

    ghost stops = { λ _. 0 };

    fn fetch(
        &mut self,
        alloc: Global,
        name: &Name,
        _: &[Stop],
    ) -> Result<FileDisk<D::File>, ShelfError> {
        match open_alone(&self.folder, alloc, name) {
            Ok(file) => Ok(FileDisk::new(file)),
            Err(error) => Err(self.refuse(error)),
        }
    }

    fn fetch_again(
        &mut self,
        _: Global,
        _: &Name,
        mut disk: FileDisk<D::File>,
    ) -> Result<FileDisk<D::File>, ShelfError> {
        match disk.settle() {
            Ok(()) => Ok(disk),
            Err(_) => Err(self.refuse(ShelfError::Failed)),
        }
    }

    fn give_back(&mut self, name: &Name, disk: FileDisk<D::File>) {
        self.faults = self.faults.saturating_add(disk.faults());
        self.folder.close(name, disk.into_file());
    }
}
