//! The laws of requests and answers. Each function is its contract.

ghost use Rattle.request_answers.specs.Laws.{ProvidersAnswerOrWork, IdleProvidersHaveAnswered, AggregatorsAnswerOrWait};

/// Each request that a provider has taken, whatever came before it and behind, is answered by what the provider has said: by what
/// became of the request, by the rows that it asked for, or by an error, under the header of the request. Else one of its records works
/// on it; so where no work waits each is answered.
pub fn providers()
    ensures or_works { ProvidersAnswerOrWork }
    ensures idle { IdleProvidersHaveAnswered }
{}

/// Each request that an aggregator has taken, whatever came before it and behind, is answered by what the aggregator has said. Else one
/// of its records works on it, and an answer of a child to that connection is missing: to a request of the same machine, or, where the
/// connection ends, that the child's has ended. Or it is a query about all that is below, and the part of a child that was asked is missing.
pub fn aggregators()
    ensures { AggregatorsAnswerOrWait }
{}
