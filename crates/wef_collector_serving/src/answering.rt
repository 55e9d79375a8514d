//! How the collector answers requests.

use std::alloc::{AllocError, Global};
use wef_base::Moment;
use wef_collector::Collector;
use wef_front::collector_answer;
use wef_http::HttpRequest;
use wef_keeper::Keeper;
use wef_serving::{Answer, Answering};

/// The answers of the collector: those of `collector_answer`, each at the target and the host of its
/// request, and in its charset.
pub struct CollectorAnswers;

impl<K: Keeper> Answering<Collector<K>> for CollectorAnswers {
    ghost use Rattle.wef_collector_serving.specs.Answers.{Answers, Leaves, known_of};

    ghost answers = { λ moment s request answer t. Answers moment (known_of K.store s) request answer (known_of K.store t) };

    ghost leaves = { λ moment s request t. Leaves moment (known_of K.store s) request (known_of K.store t) };

    #[tactic(auto, using(crate::proofs::Hosts::host_is_printed, crate::proofs::Writable::can_be_written, crate::proofs::Writable::left_known))]
    fn answer(
        &self,
        alloc: Global,
        end: &mut Collector<K>,
        request: &HttpRequest,
        now: Moment,
    ) -> Result<Answer, AllocError> {
        collector_answer(
            alloc,
            end,
            &request.target,
            &request.host,
            request.charset,
            &request.body,
            now,
        )
    }
}
