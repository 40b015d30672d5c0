//! Disks that may fail or stop, and shelves of them: what each call does to a file, and what a crash may leave of it.
#![tactic(auto)]

mod content;
mod disk;
mod memory;
mod memory_shelf;
mod plan;
mod reopen;
mod room;
mod shelf;
mod tape;

pub use disk::{Disk, DiskError};
pub use memory::MemoryDisk;
pub use memory_shelf::{FailAt, MemoryShelf, NamedDisk};
pub use plan::{Image, Stop};
pub use shelf::{Shelf, ShelfError};
