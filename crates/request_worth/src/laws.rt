//! The laws of what requests are worth. Each function is its contract.

ghost use Rattle.request_worth.specs.Laws.{RequestsAreTakenOnce, AggregatorsAskNoMore, RequestersAskNoMore, ViewsWereReserved};

use way_reach::laws::reach_is_a_sum;

/// The requests that an agent takes are those whose headers it has seen, in order: entries brought them, and no two have one header.
pub fn requests_are_taken_once()
    ensures { RequestsAreTakenOnce }
{}

/// What an aggregator asks of its children is worth no more than the requests that it takes, less one for each of these; what it still has
/// to ask as connections end is paid too.
pub fn aggregators_ask_no_more()
    ensures { AggregatorsAskNoMore }
{
    reach_is_a_sum();
}

/// What a requester asks is worth no more than what its user asks.
pub fn requesters_ask_no_more()
    ensures { RequestersAskNoMore }
{}

/// Each view of a requester is of the leg of a reserve that its user asked under the view's label.
pub fn views_were_reserved()
    ensures { ViewsWereReserved }
{}
