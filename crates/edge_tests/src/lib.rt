//! Tests alone: the trusted edge, whose contracts tell nothing of bytes, and reads that fail one by one.
#![tactic(auto)]

#[cfg(test)]
mod dates;
#[cfg(test)]
mod files;
#[cfg(test)]
mod lines;
#[cfg(test)]
mod streams;
