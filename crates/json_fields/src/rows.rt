//! Lists of objects that are written row by row.

mod put;

use crate::object::JsonObject;

/// A list of JSON objects on its way to a line, one for each row.
#[derive(Drop)]
pub struct JsonRows<'a> {
    pub(crate) items: Vec<JsonObject<'a>>,
}
