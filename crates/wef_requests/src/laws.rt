//! Laws of requests, each the contract of a function that does nothing.

ghost use Rattle.wef_requests.specs.Answers.{AnswersAreHeard, AnswersAreRead, ResponsesAreRead};
ghost use Rattle.wef_requests.specs.Requests.{RequestsAreHeard, RequestsAreRead};

/// What a collector asks a source for, the source hears: the same wish, or the same of the session that is named, with the
/// request's id, where it can be written and read again.
pub fn requests_are_heard()
    ensures { RequestsAreHeard }
{}

/// What is written for a request is read again as that request; and the source hears what it means.
pub fn requests_are_read()
    ensures { RequestsAreRead }
{}

/// What a source answers to a request that is done, a collector reads as it was meant: the same, as the answer to the
/// same message.
pub fn answers_are_read()
    ensures { AnswersAreRead }
{}

/// What a source answers to a request, the collector hears as it was meant: what is done, where the collector asks that,
/// and each fault that has a name of the table, as the answer to the same message.
pub fn answers_are_heard()
    ensures { AnswersAreHeard }
{}

/// What is written for an answer, under whatever id, is read again as that answer to that message; and its id is found.
pub fn responses_are_read()
    ensures { ResponsesAreRead }
{}
