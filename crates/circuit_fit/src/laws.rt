//! The laws of an aggregator's own records and its children. Each function is its contract.

ghost use Rattle.circuit_fit.specs.Laws.{EntriesKeepTheFit, EntriesKeepTheEnded};

/// Whatever an aggregator takes, each of its connections still fits its children: while one works, holds or commits, so do they, on the same
/// version, and what it has committed they all have. Children are asked to terminate for connections alone that don't live.
pub fn every_fit()
    ensures fit { EntriesKeepTheFit }
    ensures ended { EntriesKeepTheEnded }
{}
