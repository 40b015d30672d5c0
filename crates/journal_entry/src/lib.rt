//! Entries as the bytes of a journal, both ways.
#![tactic(auto)]

pub mod batch;
pub mod fault;
pub mod fields;
pub mod form;
pub mod journal;
pub mod laws;
pub mod lines;
pub mod payloads;
pub mod reading;
pub mod writing;

pub use batch::Batch;
pub use fault::{EntryFault, PayloadFault};
pub use form::Form;
pub use journal::{Journal, JournalFault, keep};
pub use payloads::{read_batch, read_payload};
pub use reading::read_entry;
pub use writing::write_entry;
