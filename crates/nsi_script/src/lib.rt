//! Scripts: what is asked of which agent, and when.
#![tactic(auto)]

mod draft;
pub mod fault;
pub mod form;
pub mod labels;
pub mod load;
pub mod plans;
pub mod script;
pub mod text;
pub mod words;

pub use fault::{LineRefusal, ScriptFault, ScriptRefusal};
pub use load::make_load;
pub use script::{Act, Group, PlanLine, Script, StopLine};
pub use text::read_script;
