//! An input: its lines, taken one by one as they come, or the whole of it.
#![tactic(auto)]

mod feed;
mod fill;
pub mod reader;
mod whole;

pub use reader::{LineReader, Next, ReadError};
pub use whole::read_whole;
