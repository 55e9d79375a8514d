//! Connections of a front, served one after the other.

ghost use Rattle.wef_serving.specs.Accounts.{NextAccount};

use crate::answering::Answering;
use crate::ends::ConnectionEnd;
use crate::serving::serve;
use std::alloc::Global;
use wef_base::IoFailed;
use wef_connections::Front;
use wef_http_heads::Side;
use wef_ports::Clock;

/// Takes the next connection of a front, serves it for an end of this side, and closes it. It is
/// refused where no connection could be taken, and then nothing is done.
pub fn serve_next<F: Front, E, A: Answering<E>, C: Clock>(
    alloc: Global,
    side: Side,
    front: &mut F,
    how: &A,
    end: &mut E,
    clock: &mut C,
) -> Result<ConnectionEnd, IoFailed>
    ensures { NextAccount side A.answers A.leaves (F.told front.old) (F.told front.new) end.old end.new (C.told clock.old) (C.told clock.new) result }
{
    front.accept()?;
    let over = serve(alloc, side, front, how, end, clock);
    front.close();
    Ok(over)
}
