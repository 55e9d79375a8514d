//! The source that writes an event, and what it sends next.

use crate::collectors::base;
use std::alloc::{AllocError, Global};
use wef_base::{Moment, SourceName, Text};
use wef_event::read_new_event;
use wef_keeper::MemKeeper;
use wef_source::{Poll, SourceEnd};

/// An event that the source writes.
const EVENT: &str =
    "<Event xmlns=\"http://schemas.microsoft.com/win/2004/08/events/event\"><System><Channel>application</Channel></System></Event>";

/// The source `pc1` of boot 1, which has written an event.
pub fn written(alloc: Global) -> Result<SourceEnd<MemKeeper>, AllocError> {
    let mut source = started(alloc)?;
    match write(alloc, &mut source) {
        Ok(()) => Ok(source),
        Err(fault) => Err(fault),
    }
}

fn write(alloc: Global, source: &mut SourceEnd<MemKeeper>) -> Result<(), AllocError> {
    let Ok(event) = read_new_event(&Text::from_str(alloc, EVENT)?) else {
        return Err(AllocError);
    };
    match source.write(&event) {
        Ok(_) => Ok(()),
        Err(_) => Err(AllocError),
    }
}

fn started(alloc: Global) -> Result<SourceEnd<MemKeeper>, AllocError> {
    let Ok(name) = SourceName::read(&Text::from_str(alloc, "pc1")?) else {
        return Err(AllocError);
    };
    match SourceEnd::start(alloc, MemKeeper::new(alloc), name, 64) {
        Ok(source) => Ok(source),
        Err(_) => Err(AllocError),
    }
}

/// What the source has to send for the subscription `base`.
pub fn push_next(shown: &mut Text, source: &mut SourceEnd<MemKeeper>) -> Result<(), AllocError> {
    let sub = base(shown.alloc())?;
    match source.poll(&sub, Moment::first()) {
        Ok(Poll::Send(_)) => shown.push_str("; sends"),
        Ok(Poll::Beat(_)) => shown.push_str("; beats"),
        Ok(Poll::Nothing) => shown.push_str("; has nothing to send"),
        Err(_) => shown.push_str("; has no session"),
    }
}
