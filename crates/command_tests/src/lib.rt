//! What the commands do where calls from outside and of disks fail, at the limit of an input, and with turns at once. What they
//! write where nothing fails is told by the rows of `tests/`.
#![tactic(auto)]

#[cfg(test)]
mod calling;
#[cfg(test)]
mod faults;
#[cfg(test)]
mod gates;
#[cfg(test)]
mod gating;
#[cfg(test)]
mod journals;
#[cfg(test)]
mod outside;
#[cfg(test)]
mod played;
#[cfg(test)]
#[cfg(test)]
mod texts;
