//! What a run is made with.

use std::alloc::Global;

/// Memory, threads, and how many of these work at once.
#[derive(Drop)]
pub struct Resources<'r, R> {
    pub alloc: Global,
    pub threads: &'r R,
    /// By so many workers a round is made at most.
    pub workers: usize,
}
