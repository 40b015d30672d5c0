//! What is true of every topology.

ghost use Rattle.std.specs.Prelude.{◌≡◌, ℕ, List, Ok};
ghost use Rattle.stp_topology.specs.Laws.{IsWellFormed};
ghost use Rattle.stp_topology.specs.Network.{Network};
ghost use Rattle.stp_topology.specs.Sound.{IsSound};
ghost use Rattle.stp_topology.specs.Text.{topology_of};

use crate::topology::Topology;

impl Topology {
    /// It costs nothing, and tells the laws of every topology.
    pub fn laws(&self)
        ensures { IsWellFormed self.now }
    {
        self.facts();
    }
}

/// Every topology that a text gives is sound and well formed.
pub fn every_topology()
    ensures sound { (text : List ℕ) (t : Network) (place : ℕ)
        → topology_of text ≡ Ok (t, place) → IsSound t }
    ensures well_formed { (text : List ℕ) (t : Network) (place : ℕ)
        → topology_of text ≡ Ok (t, place) → IsWellFormed t }
{}
