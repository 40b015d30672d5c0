//! The laws of a parent's views and one child. Each function is its contract.

ghost use Rattle.std.specs.Prelude.{ℕ};
ghost use Rattle.circuit_pairs.specs.Laws.{ServingKeepsPair, MindingKeepsPair, NothingIsPair, RequestersKeepPair, AggregatorsKeepPair};

/// All views that a parent has of one child stay a pair with it, whatever entry the child takes, and whatever the parent asks and hears. A
/// requester has its views by their places, an aggregator by connection and place.
pub fn every_pair()
    ensures nothing { NothingIsPair ℕ }
    ensures nothing_of_two { NothingIsPair (ℕ × ℕ) }
    ensures serving { ServingKeepsPair ℕ }
    ensures serving_two { ServingKeepsPair (ℕ × ℕ) }
    ensures minding { MindingKeepsPair ℕ }
    ensures minding_two { MindingKeepsPair (ℕ × ℕ) }
{}

/// Each entry of a requester, and of an aggregator, keeps the pair of its views and a child.
pub fn every_parent()
    ensures requester { RequestersKeepPair }
    ensures aggregator { AggregatorsKeepPair }
{}
