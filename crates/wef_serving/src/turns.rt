//! One request of a connection: it is answered, or refused.

ghost use Rattle.std.specs.Prelude.{◌≡◌, ◌⊎◌, ◌<◌, ◌≤◌, true, IfOk, IfErr};
ghost use Rattle.wef_base.specs.Counts.{Rose};
ghost use Rattle.wef_http.specs.Reading.{ahead, reach};
ghost use Rattle.wef_http_heads.specs.Fields.{is_host};
ghost use Rattle.wef_http_heads.specs.declared.ends.HttpEnd.TheVariants.{ReadFault};
ghost use Rattle.wef_http.specs.Written.{is_refusal};
ghost use Rattle.wef_ports.specs.Telling.{OnlyWrites};
ghost use Rattle.wef_serving.specs.Serving.{AnswersAt, LeavesAt, Responds};
ghost use Rattle.wef_serving.specs.Turns.{HasAnswered, HasRefused, SendsRefusal, Turns};
ghost use Rattle.wef_serving.specs.declared.ends.ConnectionEnd.TheVariants.{PortFailed};

use crate::answering::Answering;
use crate::ends::ConnectionEnd;
use crate::moments::present;
use std::alloc::Global;
use wef_base::{Bytes, Charset};
use wef_http::{HttpRequest, read_request, write_response};
use wef_http_heads::{HttpEnd, Side};
use wef_ports::{Clock, Port};

/// Serves the next request, of which `rest` may have the first bytes. What follows it stays there.
pub fn serve_one<P: Port, E, A: Answering<E>, C: Clock>(
    alloc: Global,
    side: Side,
    port: &mut P,
    rest: &mut Bytes,
    how: &A,
    end: &mut E,
    clock: &mut C,
) -> Result<(), ConnectionEnd>
    ensures turn { Turns side (AnswersAt (C.told clock.old) A.answers) (LeavesAt (C.told clock.old) A.leaves) (ahead rest.old (P.told port.old)) (P.told port.old) end.old (ahead rest.new (P.told port.new)) (P.told port.new) end.new result }
    ensures responded { (end.new ≡ end.old) ⊎ Responds (AnswersAt (C.told clock.old) A.answers) (LeavesAt (C.told clock.old) A.leaves) end.old end.new }
    ensures reach { IfOk result (λ _. reach rest.new (P.told port.new) < reach rest.old (P.told port.old)) }
    ensures around { (P.told port.new).around ≡ (P.told port.old).around }
    ensures later { (P.told port.old).faults ≤ (P.told port.new).faults }
    ensures fault { IfErr result (λ over. over ≡ PortFailed → Rose (P.told port.old).faults (P.told port.new).faults) }
    ensures clock { C.told clock.new ≡ C.told clock.old }
{
    match read_request(alloc, port, side, rest) {
        Ok(request) => answer_request(alloc, port, how, end, clock, &request),
        Err(why) => Err(refuse(alloc, port, why)),
    }
}

/// Answers a request, and sends the answer.
fn answer_request<P: Port, E, A: Answering<E>, C: Clock>(
    alloc: Global,
    port: &mut P,
    how: &A,
    end: &mut E,
    clock: &mut C,
    request: &HttpRequest,
) -> Result<(), ConnectionEnd>
    requires { is_host request.now.host ≡ true }
    ensures answered { HasAnswered (AnswersAt (C.told clock.old) A.answers) (LeavesAt (C.told clock.old) A.leaves) request.now (P.told port.old) end.old (P.told port.new) end.new result }
    ensures rest { OnlyWrites (P.told port.old) (P.told port.new) }
    ensures later { (P.told port.old).faults ≤ (P.told port.new).faults }
    ensures fault { IfErr result (λ over. over ≡ PortFailed → Rose (P.told port.old).faults (P.told port.new).faults) }
    ensures clock { C.told clock.new ≡ C.told clock.old }
{
    let now = present(clock);
    let answer = how.answer(alloc, end, request, now)?;
    write_response(alloc, port, answer.status, request.charset, &answer.body)?;
    if request.keep {
        Ok(())
    } else {
        Err(ConnectionEnd::Closed)
    }
}

/// Refuses what comes in place of a request, where there is a response for that.
fn refuse<P: Port>(alloc: Global, port: &mut P, why: HttpEnd) -> ConnectionEnd
    ensures refused { HasRefused why (P.told port.old) (P.told port.new) result }
    ensures rest { OnlyWrites (P.told port.old) (P.told port.new) }
    ensures later { (P.told port.old).faults ≤ (P.told port.new).faults }
    ensures fault { result ≡ PortFailed → (why ≡ ReadFault) ⊎ Rose (P.told port.old).faults (P.told port.new).faults }
{
    match why.status() {
        Some(status) => send_refusal(alloc, port, status),
        None => ConnectionEnd::from(why),
    }
}

/// Sends the response that refuses a request.
fn send_refusal<P: Port>(alloc: Global, port: &mut P, status: u16) -> ConnectionEnd
    requires { is_refusal status ≡ true }
    ensures sent { SendsRefusal status (P.told port.old) (P.told port.new) result }
    ensures rest { OnlyWrites (P.told port.old) (P.told port.new) }
    ensures later { (P.told port.old).faults ≤ (P.told port.new).faults }
    ensures fault { result ≡ PortFailed → Rose (P.told port.old).faults (P.told port.new).faults }
{
    let nothing = Bytes::new(alloc);
    match write_response(alloc, port, status, Charset::Utf8, &nothing) {
        Ok(()) => ConnectionEnd::Refused(status),
        Err(why) => ConnectionEnd::from(why),
    }
}
