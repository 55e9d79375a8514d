//! Connections, served for a collector.

ghost use Rattle.std.specs.Prelude.{◌≡◌, ◌≤◌};
ghost use Rattle.wef_base.specs.Counts.{Rose};
ghost use Rattle.wef_collector_serving.specs.Accounts.{NextCollectorAccount};
ghost use Rattle.wef_collector_serving.specs.Answers.{AnswersInTurn, EndsConnection, known_of};
ghost use Rattle.wef_serving.specs.declared.ends.ConnectionEnd.TheVariants.{PortFailed};

use crate::answering::CollectorAnswers;
use std::alloc::Global;
use wef_base::IoFailed;
use wef_collector::Collector;
use wef_connections::Front;
use wef_http_heads::Side;
use wef_keeper::Keeper;
use wef_ports::Clock;
use wef_serving::{ConnectionEnd, serve, serve_next};

/// Serves the present connection of a front for a collector (RFC 9112, 9): each request that comes is
/// answered once, at the moment that the clock tells then, after it was read whole. A store that fails
/// is answered, and doesn't end the connection.
pub fn serve_connection<F: Front, K: Keeper, C: Clock>(
    alloc: Global,
    front: &mut F,
    collector: &mut Collector<K>,
    clock: &mut C,
) -> ConnectionEnd
    ensures served { EndsConnection (C.told clock.old) (F.told front.old) (known_of K.store collector.old) (F.told front.new) (known_of K.store collector.new) result }
    ensures answered { AnswersInTurn (C.told clock.old) (known_of K.store collector.old) (known_of K.store collector.new) }
    ensures around { (F.told front.new).around ≡ (F.told front.old).around }
    ensures later { (F.told front.old).faults ≤ (F.told front.new).faults }
    ensures fault { result ≡ PortFailed → Rose (F.told front.old).faults (F.told front.new).faults }
    ensures clock { C.told clock.new ≡ C.told clock.old }
{
    serve(
        alloc,
        Side::Collector,
        front,
        &CollectorAnswers,
        collector,
        clock,
    )
}

/// Takes the next connection of a front, serves it for a collector, and closes it. It is refused where
/// no connection could be taken, and then nothing is done.
pub fn serve_next_connection<F: Front, K: Keeper, C: Clock>(
    alloc: Global,
    front: &mut F,
    collector: &mut Collector<K>,
    clock: &mut C,
) -> Result<ConnectionEnd, IoFailed>
    ensures { NextCollectorAccount K.store (F.told front.old) (F.told front.new) collector.old collector.new (C.told clock.old) (C.told clock.new) result }
{
    serve_next(
        alloc,
        Side::Collector,
        front,
        &CollectorAnswers,
        collector,
        clock,
    )
}
