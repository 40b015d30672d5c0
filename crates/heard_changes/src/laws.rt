//! The laws of changes of the data plane in runs. Each function is its contract.

ghost use Rattle.heard_changes.specs.Laws.{ViewsAreApart, ChangesAreHeard};

use circuit_laws::laws::{known, views};
use speech_cost::laws::changes_are_passed_on;

/// In every run, whatever front of its entries an aggregator had taken, no two of its views of one child know one connection. So it tells no
/// more changes of the data plane than it has heard.
pub fn heard()
    ensures apart { ViewsAreApart }
    ensures heard { ChangesAreHeard }
{
    known();
    views();
    changes_are_passed_on();
}
