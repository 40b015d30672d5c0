//! What is written of a run.

/// What is written of a run.
#[derive(Clone, Copy, Debug, PartialEq, Eq)]
pub enum Report {
    /// A line for each event.
    Trace,
    /// None of the events: they are only counted.
    Summary,
}
