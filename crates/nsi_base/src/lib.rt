//! Numbers within their ranges, names, texts, lists and lines, of which all other crates speak.
#![tactic(auto)]

pub mod digits;
pub mod flow;
pub mod input;
pub mod interval;
pub mod line;
pub mod list;
pub mod number;
pub mod text;
pub mod words;

pub use flow::Flow;
pub use input::GREATEST_INPUT;
pub use interval::Interval;
pub use list::List;
pub use number::{AgentNo, HoldTime, Mbps, RecordNo, Second, StpNo, Version};
pub use text::{Name, NameFault, Text, TextFault, copy_name, copy_text, is_name};
pub use words::Blanks;
