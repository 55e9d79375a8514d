//! What answers requests.

use std::alloc::{AllocError, Global};
use wef_base::Moment;
use wef_http::HttpRequest;
use wef_http_heads::Answer;

/// How an end answers requests. It is apart from the end, which can be lent to it so.
pub trait Answering<E> {
    ghost use Rattle.std.specs.Prelude.{◌≡◌, ℕ, true, IfOk, IfErr};
    ghost use Rattle.wef_http.specs.declared.messages.HttpRequest as the_request;
    ghost use Rattle.wef_http_heads.specs.Fields.{is_host};
    ghost use Rattle.wef_http_heads.specs.declared.answers.Answer as the_answer;
    ghost use Rattle.wef_serving.specs.Serving.{CanBeWritten};

    // at a moment and of an end, a request is answered so, and this is the end then
    ghost answers: { ℕ → E → the_request.HttpRequest → the_answer.Answer → E → Type 0 };

    // the same, where there was no memory for the answer
    ghost leaves: { ℕ → E → the_request.HttpRequest → E → Type 0 };

    /// Answers a request at a moment: with an envelope under 200 or 500, or with nothing under another
    /// status that is written.
    fn answer(
        &self,
        alloc: Global,
        end: &mut E,
        request: &HttpRequest,
        now: Moment,
    ) -> Result<Answer, AllocError>
        requires { is_host request.now.host ≡ true }
        ensures answered { IfOk result (λ answer. answers now end.old request.now answer end.new) }
        ensures writable { IfOk result CanBeWritten }
        ensures left { IfErr result (λ _. leaves now end.old request.now end.new) };
}
