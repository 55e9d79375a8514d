//! Laws of messages, each the contract of a function that does nothing.

ghost use Rattle.wef_http.specs.Laws.{OneRequest, OneResponse, RefusalsAreWritten, RequestHeadsAreShort, RequestsAreRead, ResponsesAreRead};

/// Bytes begin with at most one request to an end, and where they do there is no reason in them to
/// refuse it; else there is one reason at most, but for the choice at a head that is cut off. So each
/// refusal comes exactly where its reason is.
pub fn one_request_is_read()
    ensures { OneRequest }
{}

/// The same of responses, which are never refused for a method, a path or a missing length.
pub fn one_response_is_read()
    ensures { OneResponse }
{}

/// A request that is written is read as it was meant, by the end that serves its target: so where
/// its host and its path are good, its head is short enough and its body isn't too large.
pub fn requests_are_read()
    ensures { RequestsAreRead }
{}

/// A response that is written is read as it was meant, where its body isn't too large.
pub fn responses_are_read()
    ensures { ResponsesAreRead }
{}

/// The head of a request has at most 128 bytes beside its host and its path, where its body isn't too
/// large.
pub fn request_heads_are_short()
    ensures { RequestHeadsAreShort }
{}

/// Each refusal of a request that has a response has one that `write_response` writes, without a body.
pub fn refusals_are_written()
    ensures { RefusalsAreWritten }
{}
