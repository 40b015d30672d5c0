//! The laws of how many requests there are in runs. Each function is its contract.

ghost use Rattle.run_requests.specs.Laws.{TakenWereSaid, PaidRequestsAreFew, FeesExist, RequestsAreFew, ScriptsAreWorth, PlaysAskFew};

use due_events::laws::plays_are_scripted;
use nsi_agent::laws::every_message;
use nsi_world::laws::sent;
use request_worth::laws::{
    aggregators_ask_no_more, requesters_ask_no_more, requests_are_taken_once, views_were_reserved,
};
use way_reach::laws::reach_is_a_sum;

/// In every run, whatever each request may be worth, those that agents have taken are worth no more than those that agents have said: each
/// was said to one agent, which took it once.
pub fn taken_were_said()
    ensures { TakenWereSaid }
{
    sent();
}

/// Where it is known what each request is worth, agents of a run say and take no more requests than their users' asks are worth: what an
/// agent says is worth less than what it takes, by one for each request, and what is taken was said.
pub fn paid_are_few()
    ensures { PaidRequestsAreFew }
{
    aggregators_ask_no_more();
    every_message();
    requesters_ask_no_more();
    requests_are_taken_once();
    sent();
    taken_were_said();
}

/// In every run it is known what each request is worth: a first reserve as much as its leg comes to, and a request about a connection as much
/// as the leg between the two points of its record.
pub fn fees_exist()
    ensures { FeesExist }
{
    reach_is_a_sum();
    views_were_reserved();
}

/// So in every run agents say, and take, no more requests than their users' asks are worth.
pub fn requests_are_few()
    ensures { RequestsAreFew }
{
    fees_exist();
    paid_are_few();
}

/// What is so of the asks of a script is so of those that stand in journals as its play goes on, whichever disks stop: what they are worth.
pub fn scripts_are_worth()
    ensures { ScriptsAreWorth }
{
    plays_are_scripted();
}

/// So in each front of a play that is a run agents ask, and take, no more requests than the asks of the script are worth.
pub fn plays_ask_few()
    ensures { PlaysAskFew }
{
    plays_are_scripted();
    requests_are_few();
    scripts_are_worth();
}
