//! A world: the ends that a schedule moves, in a state that is kept.

ghost use Rattle.std.specs.Prelude.{◌≡◌, ◌++◌, true, OnOk, OnErr};
ghost use Rattle.wef_safety.specs.Kept.{IsHeld};
ghost use Rattle.wef_machine.specs.States as states;
ghost use Rattle.wef_machine.specs.Steps as steps;
ghost use Rattle.wef_places.specs.Counted.{calls_after};
ghost use Rattle.wef_world.specs.Places.{HasPlaces};

use crate::ends::Ends;
use std::alloc::Global;
use std::marker::Model;
use std::mem;
use wef_base::Bytes;
use wef_places::collecting::CollectorPlace;
use wef_places::sources::Sources;
use wef_places::{Answers, WorldFault};
use wef_replay::Line;

/// What a world holds: a collector and sources, at a moment, and all messages that they ever sent each
/// other.
#[derive(Drop)]
pub struct Held {
    /// None once a line wanted memory.
    ends: Option<Ends>,
    alloc: Global,
}

impl Model for Held {
    ghost use Rattle.wef_safety.specs.Kept.{IsHeld};
    ghost use Rattle.wef_machine.specs.States.{State, held};
    ghost use Rattle.wef_world.specs.contracts.ends.Ends as the_ends;

    ghost Value = { State };

    ghost coded = { the_ends.the_row.coded };

    ghost view = { λ w. held w.ends };

    ghost invariant = { λ w. IsHeld (held w.ends) };
}

impl Held {
    /// What a world holds in which nothing has happened.
    fn new(alloc: Global) -> Held
        ensures { result ≡ states.start }
    {
        Held {
            ends: Some(Ends::new(alloc)),
            alloc,
        }
    }

    fn into_places(self) -> Option<(CollectorPlace, Sources)>
        ensures { HasPlaces self result }
    {
        match self.ends {
            Some(ends) => Some(ends.into_places()),
            None => None,
        }
    }

    fn admits(&self, line: &Line) -> bool
        ensures { result ≡ steps.admits self.now line.now }
    {
        match &self.ends {
            Some(ends) => ends.admits(line),
            None => Ends::new(self.alloc).admits(line),
        }
    }

    /// Does one line, as `World::apply` does.
    fn apply<A: Answers>(
        &mut self,
        answers: &mut A,
        line: &Line,
        out: &mut Bytes,
    ) -> Result<(), WorldFault>
        requires { steps.admits self.old line.now ≡ true }
        ensures state { OnOk result (self.new ≡ steps.step line.now self.old) }
        ensures printed { OnOk result (out.new ≡ out.old ++ steps.printed_by line.now self.old) }
        ensures calls { OnOk result (A.calls answers.new ≡ calls_after line.now self.old (A.calls answers.old)) }
        ensures lost { OnErr result (self.new ≡ states.start) }
        ensures err { OnErr result (out.new ≡ out.old) }
    {
        let Some(mut ends) = self.ends.take() else {
            return Err(WorldFault::NoMemory);
        };
        match print_line(&mut ends, answers, line, out) {
            Ok(()) => {
                drop(mem::replace(&mut self.ends, Some(ends)));
                Ok(())
            }
            Err(fault) => {
                drop(ends);
                Err(fault)
            }
        }
    }
}

/// Does one line that the ends admit, and appends what it prints.
fn print_line<A: Answers>(
    ends: &mut Ends,
    answers: &mut A,
    line: &Line,
    out: &mut Bytes,
) -> Result<(), WorldFault>
    requires admitted { steps.admits ends.old line.now ≡ true }
    requires held { IsHeld ends.old }
    ensures state { OnOk result (ends.new ≡ steps.step line.now ends.old) }
    ensures printed { OnOk result (out.new ≡ out.old ++ steps.printed_by line.now ends.old) }
    ensures calls { OnOk result (A.calls answers.new ≡ calls_after line.now ends.old (A.calls answers.old)) }
    ensures err { OnErr result (out.new ≡ out.old) }
{
    let mut printed = ends.seen_by(line)?;
    let text = ends.run_line(answers, line)?;
    printed.extend(text.as_str().as_bytes())?;
    out.extend(printed.as_slice())?;
    Ok(())
}

/// A collector and sources, at a moment, and all messages that they ever sent each other; and what
/// answers these. Each world is kept: what the collector holds is safe, and no message on its way can
/// change that.
#[derive(Drop)]
pub struct World<A> {
    held: Held,
    answers: A,
}

impl<A: Answers> World<A> {
    /// A world in which nothing has happened. It takes no memory.
    pub fn new(alloc: Global, answers: A) -> World<A>
        ensures held { result.held ≡ states.start }
        ensures answers { result.answers ≡ answers }
    {
        World {
            held: Held::new(alloc),
            answers,
        }
    }

    /// Whether a schedule may have the line next. It takes no memory.
    pub fn admits(&self, line: &Line) -> bool
        ensures { result ≡ steps.admits self.now.held line.now }
    {
        self.held.admits(line)
    }

    /// Does one line that the world admits, and appends what it prints. A message that is bytes and
    /// whose end is open, or can be opened, is handed to the answers. After a fault the world has lost
    /// its ends: it is as new, and does no line any more.
    pub fn apply(&mut self, line: &Line, out: &mut Bytes) -> Result<(), WorldFault>
        requires { steps.admits self.old.held line.now ≡ true }
        ensures state { OnOk result (self.new.held ≡ steps.step line.now self.old.held) }
        ensures printed { OnOk result (out.new ≡ out.old ++ steps.printed_by line.now self.old.held) }
        ensures calls { OnOk result (A.calls self.new.answers ≡ calls_after line.now self.old.held (A.calls self.old.answers)) }
        ensures lost { OnErr result (self.new.held ≡ states.start) }
        ensures err { OnErr result (out.new ≡ out.old) }
    {
        self.held.apply(&mut self.answers, line, out)
    }

    /// Takes the world apart: its collector and its sources, in their places. None after a fault, where
    /// it is as new.
    pub fn into_places(self) -> Option<(CollectorPlace, Sources)>
        ensures { HasPlaces self.held result }
    {
        self.held.into_places()
    }

    /// What answers its messages.
    pub fn answers(&self) -> &A
        ensures { result.now ≡ self.now.answers }
    {
        &self.answers
    }
}
