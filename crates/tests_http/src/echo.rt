//! An end that says requests back.

use std::alloc::{AllocError, Global};
use wef_base::{Bytes, Moment};
use wef_http::HttpRequest;
use wef_serving::{Answer, Answering};

/// Answers with how many requests came and with the body of the last; with a fault where that is
/// `fault`, and with nothing where it is empty. The end is the count.
pub(crate) struct Echo;

impl Answering<u64> for Echo {
    ghost answers = { λ _ _ _ _ _. Unit {0} };

    ghost leaves = { λ _ _ _ _. Unit {0} };

    fn answer(
        &self,
        alloc: Global,
        end: &mut u64,
        request: &HttpRequest,
        _now: Moment,
    ) -> Result<Answer, AllocError> {
        *end = end.saturating_add(1);
        if request.body.is_empty() {
            return Ok(Answer {
                status: 204,
                body: Bytes::new(alloc),
            });
        }
        let status = if request.body.as_slice() == b"fault".as_slice() {
            500
        } else {
            200
        };
        let count = format!(in alloc; "{} ", *end)?;
        let mut body = Bytes::from_slice(alloc, count.as_str().as_bytes())?;
        body.extend(request.body.as_slice())?;
        Ok(Answer { status, body })
    }
}
