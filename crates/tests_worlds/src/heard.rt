//! What a world hands to its answers: the bytes of each message that it delivers, as it shows them.

ghost use Rattle.std.specs.Prelude.{◌≡◌};
ghost use Rattle.wef_keeper.specs.Keeping.{raised};

use std::alloc::{AllocError, Global};
use tests_tasks::escapes::unescaped;
use wef_base::{Bytes, Charset, Moment, Text};
use wef_collector::Collector;
use wef_front::{Answer, Hears, Target};
use wef_front_collector::Hears as CollectorHears;
use wef_keeper::MemKeeper;
use wef_replay::{Line, read_schedule};
use wef_source::SourceEnd;
use wef_world::{Answers, Shipped, World};

/// The program's answers, which note each body that they are given, and end it as a line.
#[derive(Drop)]
struct Noting {
    shipped: Shipped,
    noted: Bytes,
    calls: u64,
}

impl Noting {
    fn new(alloc: Global) -> Noting {
        Noting {
            shipped: Shipped::new(alloc),
            noted: Bytes::new(alloc),
            calls: 0,
        }
    }

    fn note(&mut self, body: &Bytes) -> Result<(), AllocError>
        ensures { self.new.calls ≡ raised self.old.calls }
    {
        self.calls = self.calls.saturating_add(1);
        self.noted.extend(body.as_slice())?;
        self.noted.push(b'\n')
    }
}

impl Answers for Noting {
    ghost calls = { λ noting. noting.calls };

    fn collector_answer(
        &mut self,
        collector: &mut Collector<MemKeeper>,
        target: &Target,
        host: &Text,
        charset: Charset,
        body: &Bytes,
        now: Moment,
    ) -> Result<Answer, AllocError> {
        self.note(body)?;
        self.shipped
            .collector_answer(collector, target, host, charset, body, now)
    }

    fn collector_hears(
        &mut self,
        collector: &mut Collector<MemKeeper>,
        body: &Bytes,
        now: Moment,
    ) -> Result<CollectorHears, AllocError> {
        self.note(body)?;
        self.shipped.collector_hears(collector, body, now)
    }

    fn source_answer(
        &mut self,
        source: &mut SourceEnd<MemKeeper>,
        charset: Charset,
        body: &Bytes,
        now: Moment,
    ) -> Result<Answer, AllocError> {
        self.note(body)?;
        self.shipped.source_answer(source, charset, body, now)
    }

    fn source_hears(
        &mut self,
        source: &mut SourceEnd<MemKeeper>,
        body: &Bytes,
        now: Moment,
    ) -> Result<Hears, AllocError> {
        self.note(body)?;
        self.shipped.source_hears(source, body, now)
    }
}

/// How many messages a schedule hands to a world's answers, and whether they are those that it shows.
pub(crate) fn push_heard(shown: &mut Text, line: &str) -> Result<(), AllocError> {
    let alloc = shown.alloc();
    match read_schedule(alloc, unescaped(alloc, line)?.as_slice()) {
        Ok(lines) => push_noted(shown, lines.as_slice()),
        Err(_) => shown.push_str("not understood"),
    }
}

fn push_noted(shown: &mut Text, lines: &[Line]) -> Result<(), AllocError> {
    let alloc = shown.alloc();
    let mut world = World::new(alloc, Noting::new(alloc));
    let mut trail = Bytes::new(alloc);
    if !are_done(&mut world, lines, &mut trail) {
        return shown.push_str("not done");
    }
    push_compared(shown, world.answers(), trail.as_slice())
}

/// Does lines, up to the first that can't be done.
fn are_done(world: &mut World<Noting>, lines: &[Line], trail: &mut Bytes) -> bool {
    for line in lines {
        if !world.admits(line) || world.apply(line, trail).is_err() {
            return false;
        }
    }
    true
}

fn push_compared(shown: &mut Text, noting: &Noting, trail: &[u8]) -> Result<(), AllocError> {
    shown.push_number(noting.calls)?;
    let messages = messages_in(shown.alloc(), str::from_utf8(trail).unwrap_or("no UTF-8"))?;
    shown.push_str(if messages.as_slice() == noting.noted.as_slice() {
        " as they are shown"
    } else {
        " not as they are shown"
    })
}

/// The messages that a trail shows, each with the end of its line.
fn messages_in(alloc: Global, trail: &str) -> Result<Bytes, AllocError> {
    let mut messages = Bytes::new(alloc);
    for line in trail.split_terminator('\n') {
        if let Some(shown) = line.strip_prefix("message ") {
            let (_, message) = shown.split_once(' ').unwrap_or((shown, ""));
            messages.extend(message.as_bytes())?;
            messages.push(b'\n')?;
        }
    }
    Ok(messages)
}
