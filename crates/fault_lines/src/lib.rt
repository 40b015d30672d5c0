//! The lines of faults that a command ends with.
#![tactic(auto)]

mod lines;

pub use lines::{as_line, disk_fault_text, journal_fault, script_fault, topology_fault};
