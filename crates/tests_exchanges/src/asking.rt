//! A collector that is asked, and what it says.

use crate::answers::push_shown;
use crate::cuts::push_fronts;
use crate::requests::{Kind, Place, Request, request_of, request_with};
use crate::ways::{DELIVERED, Shown, Way};
use std::alloc::{AllocError, Global};
use tests_collectors::collectors::{Kept, collector_of, host, push_left};
use tests_tasks::deliveries::edited;
use wef_base::{List, Moment, Text};
use wef_collector::Collector;
use wef_front::{Answer, collector_answer};
use wef_keeper::MemKeeper;

/// What is said to the requests of a line, and what is kept behind the last.
pub(crate) fn push_asked(shown: &mut Text, way: &Way, line: &str) -> Result<(), AllocError> {
    let requests = requests_of(shown.alloc(), way, line)?;
    push_answered(shown, way, requests.as_slice())
}

fn requests_of(alloc: Global, way: &Way, line: &str) -> Result<List<Request>, AllocError> {
    let mut requests = List::new(alloc);
    for request in line.split(" then ") {
        requests.push(request_of(alloc, way.place, way.kind, request)?)?;
    }
    Ok(requests)
}

/// What is said to each front of a delivery with edits, and what is kept behind it.
pub(crate) fn push_cuts(shown: &mut Text, edits: &str) -> Result<(), AllocError> {
    let body = edited(shown.alloc(), edits)?;
    push_fronts(shown, body.as_slice(), push_front)
}

fn push_front(shown: &mut Text, front: &[u8]) -> Result<(), AllocError> {
    let mut requests = List::new(shown.alloc());
    requests.push(request_with(shown.alloc(), Place::Base, front)?)?;
    push_answered(shown, &DELIVERED, requests.as_slice())
}

/// What is said to requests that follow each other, and what is kept behind the last.
fn push_answered(shown: &mut Text, way: &Way, requests: &[Request]) -> Result<(), AllocError> {
    let mut collector = collector_of(shown.alloc(), way.kept)?;
    match push_answers(shown, &mut collector, way, requests) {
        Ok(()) if !matches!(way.shown, Shown::Bytes) => push_left(shown, collector, way.kept),
        answered => answered,
    }
}

/// Arms the first commit, or has a batch delivered.
fn prepare(
    alloc: Global,
    collector: &mut Collector<MemKeeper>,
    way: &Way,
) -> Result<(), AllocError> {
    if let Some(after) = way.fails {
        collector.fail_next(after);
    }
    if way.behind {
        let line = "base; pc1.example.org; as it is";
        let batch = request_of(alloc, Place::Said, Kind::Delivery, line)?;
        asked(alloc, collector, &batch, 1)?;
    }
    Ok(())
}

fn push_answers(
    shown: &mut Text,
    collector: &mut Collector<MemKeeper>,
    way: &Way,
    requests: &[Request],
) -> Result<(), AllocError> {
    prepare(shown.alloc(), collector, way)?;
    let mut second: u64 = 0;
    for request in requests {
        shown.push_str(if second > 0 { " then " } else { "" })?;
        second = second.saturating_add(1);
        let answer = asked(shown.alloc(), collector, request, second)?;
        push_shown(shown, way.shown, request, &answer)?;
    }
    Ok(())
}

/// Asks the collector, at a second.
fn asked(
    alloc: Global,
    collector: &mut Collector<MemKeeper>,
    request: &Request,
    second: u64,
) -> Result<Answer, AllocError> {
    collector_answer(
        alloc,
        collector,
        &request.target,
        &host(alloc)?,
        request.charset,
        &request.body,
        Moment::of(second.saturating_mul(1_000)).unwrap_or(Moment::first()),
    )
}

/// What a new collector says to an Enumerate.
pub(crate) fn answered(alloc: Global, wish: &[u8]) -> Result<Answer, AllocError> {
    let request = request_with(alloc, Place::Manager, wish)?;
    let mut collector = collector_of(alloc, Kept::Live)?;
    asked(alloc, &mut collector, &request, 1)
}
