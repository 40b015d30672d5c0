//! What is true of the history of a book, whatever the network of its provider.
#![tactic(auto)]

mod laws;

pub use laws::histories;
