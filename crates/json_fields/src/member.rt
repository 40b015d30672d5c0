//! What stands at a key of an object that is being written.

use crate::key::Key;

/// What is written at a key. Texts are borrowed until the object is written.
#[derive(Clone, Copy, Drop)]
pub enum Written<'a> {
    Number(u64),
    Text(&'a str),
    /// An id by its number.
    Id(u128),
    /// A date-time by its second; a number beyond the last one is written as such.
    Time(u64),
    Flag(bool),
}

/// A key, and what is written at it.
#[derive(Clone, Copy, Drop)]
pub struct Member<'a> {
    pub(crate) key: Key,
    pub(crate) value: Written<'a>,
}
