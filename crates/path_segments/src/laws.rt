//! What is true of every least path.

ghost use Rattle.std.specs.Prelude.{◌≡◌, ℕ, List};
ghost use Rattle.path_segments.specs.Paths.{IsLeastPath};
ghost use Rattle.path_segments.specs.declared.path.Segment.{Segment as OneSegment};
ghost use Rattle.stp_topology.specs.declared.network.Network.{Network};

/// There is one least path at most, so which one is found is determined.
pub fn one_least()
    ensures { (t : Network) (aggregator source dest : ℕ) (xs ys : List OneSegment)
        → IsLeastPath t aggregator source dest xs
        → IsLeastPath t aggregator source dest ys → xs ≡ ys }
{}
