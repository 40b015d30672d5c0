//! How times are written.

/// How a time of a schedule is written: as its number of seconds, or as the text of its date-time.
#[derive(Clone, Copy, Debug, PartialEq, Eq)]
pub enum TimeForm {
    Number,
    DateTime,
}
