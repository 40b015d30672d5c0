//! Which rows the answer to a query has.
#![tactic(auto)]

pub mod answers;
pub mod counted;
pub mod laws;
pub mod nested;
pub mod rows;
pub mod summaries;

pub use answers::{answer_about, nested_answer, summary_answer};
pub use counted::{notifications, results};
pub use nested::{nest, own_row};
pub use rows::Rows;
pub use summaries::{add_own, summary, summary_at, summary_of};
