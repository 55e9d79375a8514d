//! A connection, served to its end.

ghost use Rattle.std.specs.Prelude.{◌≡◌, ◌≤◌};
ghost use Rattle.wef_base.specs.Counts.{Rose};
ghost use Rattle.wef_serving.specs.Serving.{AnswersAt, LeavesAt, RespondsInTurn};
ghost use Rattle.wef_serving.specs.Turns.{Ends};

use crate::answering::Answering;
use crate::ends::ConnectionEnd;
use crate::turns::serve_one;
use std::alloc::Global;
use wef_base::Bytes;
use wef_http_heads::Side;
use wef_ports::{Clock, Port};

/// Serves the connection that a port is, for an end of this side: each request that comes is answered
/// at the moment that the clock tells then, once it was read whole. What the end has become is told also
/// where the bytes of the connection aren't.
pub fn serve<P: Port, E, A: Answering<E>, C: Clock>(
    alloc: Global,
    side: Side,
    port: &mut P,
    how: &A,
    end: &mut E,
    clock: &mut C,
) -> ConnectionEnd
    ensures served { Ends side (AnswersAt (C.told clock.old) A.answers) (LeavesAt (C.told clock.old) A.leaves) (P.told port.old).coming (P.told port.old) end.old (P.told port.new) end.new result }
    ensures responded { RespondsInTurn (AnswersAt (C.told clock.old) A.answers) (LeavesAt (C.told clock.old) A.leaves) end.old end.new }
    ensures around { (P.told port.new).around ≡ (P.told port.old).around }
    ensures later { (P.told port.old).faults ≤ (P.told port.new).faults }
    ensures fault { result ≡ ConnectionEnd.PortFailed → Rose (P.told port.old).faults (P.told port.new).faults }
    ensures clock { C.told clock.new ≡ C.told clock.old }
{
    let mut rest = Bytes::new(alloc);
    'serving: loop {
        match serve_one(alloc, side, port, &mut rest, how, end, clock) {
            Ok(()) => {}
            Err(over) => return over,
        }
    }
}
