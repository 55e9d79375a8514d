//! Connections, served for a source.

ghost use Rattle.std.specs.Prelude.{◌≡◌, ◌≤◌};
ghost use Rattle.wef_base.specs.Counts.{Rose};
ghost use Rattle.wef_serving.specs.declared.ends.ConnectionEnd.TheVariants.{PortFailed};
ghost use Rattle.wef_source_serving.specs.Accounts.{NextSourceAccount};
ghost use Rattle.wef_source_serving.specs.Answers.{AnswersInTurn, EndsConnection, known_of};

use crate::answering::SourceAnswers;
use std::alloc::Global;
use wef_base::IoFailed;
use wef_connections::Front;
use wef_http_heads::Side;
use wef_keeper::Keeper;
use wef_ports::Clock;
use wef_serving::{ConnectionEnd, serve, serve_next};
use wef_source::SourceEnd;

/// Serves the present connection of a front for a source (RFC 9112, 9): each request that comes is
/// answered once, at the moment that the clock tells then, after it was read whole. The store of its log
/// isn't used.
pub fn serve_source_connection<F: Front, K: Keeper, C: Clock>(
    alloc: Global,
    front: &mut F,
    source: &mut SourceEnd<K>,
    clock: &mut C,
) -> ConnectionEnd
    ensures served { EndsConnection (C.told clock.old) (F.told front.old) (known_of K.store source.old) (F.told front.new) (known_of K.store source.new) result }
    ensures answered { AnswersInTurn (C.told clock.old) (known_of K.store source.old) (known_of K.store source.new) }
    ensures store { K.store source.new.keeper ≡ K.store source.old.keeper }
    ensures around { (F.told front.new).around ≡ (F.told front.old).around }
    ensures later { (F.told front.old).faults ≤ (F.told front.new).faults }
    ensures fault { result ≡ PortFailed → Rose (F.told front.old).faults (F.told front.new).faults }
    ensures clock { C.told clock.new ≡ C.told clock.old }
{
    serve(alloc, Side::Source, front, &SourceAnswers, source, clock)
}

/// Takes the next connection of a front, serves it for a source, and closes it. It is refused where no
/// connection could be taken, and then nothing is done.
pub fn serve_next_source_connection<F: Front, K: Keeper, C: Clock>(
    alloc: Global,
    front: &mut F,
    source: &mut SourceEnd<K>,
    clock: &mut C,
) -> Result<ConnectionEnd, IoFailed>
    ensures { NextSourceAccount K.store (F.told front.old) (F.told front.new) source.old source.new (C.told clock.old) (C.told clock.new) result }
{
    serve_next(alloc, Side::Source, front, &SourceAnswers, source, clock)
}
