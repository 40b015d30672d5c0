//! Files of a folder as disks, one for each agent. Disks and shelves are proved over files and folders that tell what their
//! calls did. Those of std, the trusted edge, tell nothing.
#![tactic(auto)]

mod adapters;
mod disk;
mod file;
mod folder;
mod memory;
mod name;
mod outcome;
mod shelf;
mod tally;

pub use adapters::StdFolder;
pub use disk::FileDisk;
pub use file::DiskFile;
pub use folder::Folder;
pub use memory::MemoryFile;
pub use name::{distinct_files, file_name};
pub use outcome::{
    CallOutcome, PieceOutcome, call_outcome, fetch_outcome, length_outcome, lock_outcome,
    piece_outcome,
};
pub use shelf::{FileShelf, FolderShelf};
