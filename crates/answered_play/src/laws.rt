//! The laws of requests and answers in runs and plays. Each function is its contract.

ghost use Rattle.answered_play.specs.Laws.{GotWasTaken, RunsAnswer, AnswersAtRest, PlayAnswers, PlayBringsAnswers};

use nsi_world::laws::{play_runs, requests, sent};
use request_answers::laws::{aggregators, providers};
use settled_play::laws::settled;

/// In every run an agent takes each request that it gets, whatever comes twice. So in each world each request that a provider got is
/// answered, or it works on it; and each that an aggregator got is answered, or an answer of a child is missing.
pub fn every_run()
    ensures taken { GotWasTaken }
    ensures answered { RunsAnswer }
{
    sent();
    requests();
    providers();
    aggregators();
}

/// Where all agents have come to rest in a run each request that a provider got is answered by what it has said, whatever is lost,
/// whatever comes twice and whoever begins again from what was synced; and each that an aggregator got is answered, or an answer of a
/// child is missing.
pub fn at_rest()
    ensures { AnswersAtRest }
{
    sent();
    requests();
    providers();
    aggregators();
}

/// At the end of a play each request that a provider got is answered by what it has said, whatever is lost and whatever comes twice;
/// and each that an aggregator got is answered, or an answer of a child is missing.
pub fn every_play()
    ensures { PlayAnswers }
{
    at_rest();
    play_runs();
}

/// Where nothing is lost and no agent restarts, the answer to each request that an agent has said to a provider comes to that agent.
pub fn every_lossless_play()
    ensures { PlayBringsAnswers }
{
    sent();
    requests();
    play_runs();
    settled();
    every_play();
}
