//! The laws of least paths and of their legs. Each function is its contract.

ghost use Rattle.least_routes.specs.Laws.{LeastPathOrNone, RoutesExist, RoutesAreOne};

/// In each topology, between any two points, an aggregator has a least path, or there is no path at all.
pub fn least_path_or_none()
    ensures { LeastPathOrNone }
{}

/// Each topology has the legs of the least paths of each agent between any two points, and functions that give them agree. So
/// what is said of whichever routes is said of one function, and there is one.
pub fn routes_exist()
    ensures exist { RoutesExist }
    ensures one { RoutesAreOne }
{}
