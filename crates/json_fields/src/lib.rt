//! The keys of a line's JSON object, the forms of their values, and how both are read and written.
#![tactic(auto)]

pub mod fault;
pub mod key;
pub mod member;
pub mod object;
pub mod reading;
pub mod row_fields;
pub mod rows;
pub mod time_form;
pub mod value;

pub use fault::LineFault;
pub use key::Key;
pub use object::JsonObject;
pub use rows::JsonRows;
pub use time_form::TimeForm;
pub use value::JsonValue;
