//! What a script makes the agents of a topology do where disks stop: definitions, and the laws that such a play is a run, comes to rest
//! and leaves nothing open but what was lost, whichever disks stop and whatever they keep.
#![tactic(auto)]

pub mod laws;
