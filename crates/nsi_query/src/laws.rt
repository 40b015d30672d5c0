//! The laws of answers to queries.

ghost use Rattle.nsi_query.specs.Laws.{QueriesAreAnswered, AnswersHaveRows, AnswersArePrintable, ProvidersAnswer, ProvidersArePrintable, ProvidersTellRows, SummariesArePrintable};

/// It costs nothing, and tells what is true of every answer.
pub fn answers()
    ensures queried { QueriesAreAnswered }
    ensures rows { AnswersHaveRows }
    ensures printable { AnswersArePrintable }
    ensures summaries { SummariesArePrintable }
    ensures providers_answer { ProvidersAnswer }
    ensures providers { ProvidersTellRows }
    ensures providers_printable { ProvidersArePrintable }
{}
