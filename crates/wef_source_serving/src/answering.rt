//! How a source answers requests.

use std::alloc::{AllocError, Global};
use wef_base::Moment;
use wef_front::source_answer;
use wef_http::HttpRequest;
use wef_keeper::Keeper;
use wef_serving::{Answer, Answering};
use wef_source::SourceEnd;

/// The answers of a source: those of `source_answer`, each in the charset of its request. There is one
/// target at which a source takes requests, so the target isn't asked for.
pub struct SourceAnswers;

impl<K: Keeper> Answering<SourceEnd<K>> for SourceAnswers {
    ghost use Rattle.wef_source_serving.specs.Answers.{Answers, Leaves, known_of};

    ghost answers = { λ moment s request answer t. Answers moment (known_of K.store s) request answer (known_of K.store t) };

    ghost leaves = { λ moment s request t. Leaves moment (known_of K.store s) request (known_of K.store t) };

    #[tactic(auto, using(crate::proofs::Writable::answered_known, crate::proofs::Writable::can_be_written, crate::proofs::Writable::left_known))]
    fn answer(
        &self,
        alloc: Global,
        end: &mut SourceEnd<K>,
        request: &HttpRequest,
        now: Moment,
    ) -> Result<Answer, AllocError> {
        source_answer(alloc, end, request.charset, &request.body, now)
    }
}
