//! What the ends make of messages as bytes, as a world asks for it.

ghost use Rattle.std.specs.Prelude.{◌≡◌};

use std::alloc::{AllocError, Global};
use wef_base::{Bytes, Charset, Moment, Text};
use wef_collector::Collector;
use wef_front::{Answer, Hears, Target};
use wef_front_collector::Hears as CollectorHears;
use wef_keeper::{Keeper, MemKeeper};
use wef_source::SourceEnd;

/// The answers to messages, and what is heard in them: each method promises what the function of
/// wef_front with its name does. A world hands over the bytes of each message that it delivers, and
/// nothing of its value.
pub trait Answers: Drop {
    ghost use Rattle.std.specs.Prelude.{◌≡◌, ◌⊎◌, ℕ, IfErr, IfOk, OnErr};
    ghost use Rattle.wef_eventing.specs.Addresses as addresses;
    ghost use Rattle.wef_front_collector.specs.Heard as hearing;
    ghost use Rattle.wef_front_collector.specs.HeardResponses.{HearsResponse, IsUntaken, response_told};
    ghost use Rattle.wef_front_collector.specs.Replies.{IsAnswer, IsUnanswered};
    ghost use Rattle.wef_front_collector.specs.declared.hearing.Heard as heard;
    ghost use Rattle.wef_front_source.specs.Heard as source_hearing;
    ghost use Rattle.wef_front_source.specs.HeardReplies.{HearsTold, offers_told, told};
    ghost use Rattle.wef_front_source.specs.Replies.{MayHaveReplied, reply};
    ghost use Rattle.wef_front_source.specs.declared.hearing.Heard as source_heard;
    ghost use Rattle.wef_keeper.specs.Keeping.{raised};

    /// How many calls of its methods were made; at 2^64 - 1 it stays.
    ghost calls: { Self → ℕ };

    /// Answers the bytes of a request to the collector. There may be no memory for the answer.
    fn collector_answer(
        &mut self,
        collector: &mut Collector<MemKeeper>,
        target: &Target,
        host: &Text,
        charset: Charset,
        body: &Bytes,
        now: Moment,
    ) -> Result<Answer, AllocError>
        requires host { addresses.IsHost host.now }
        ensures answer { IfOk result (λ answer. (said : heard.Heard) × hearing.Hears target.now charset body.now said
            × IsAnswer host.now said charset now answer collector.old.memory collector.new.memory (⟦<MemKeeper as Keeper>⟧.store collector.old.keeper) (⟦<MemKeeper as Keeper>⟧.store collector.new.keeper)) }
        ensures wants_memory { IfErr result (λ _. (collector.new ≡ collector.old) ⊎ ((said : heard.Heard) × hearing.Hears target.now charset body.now said
            × IsUnanswered host.now said now collector.old.memory collector.new.memory (⟦<MemKeeper as Keeper>⟧.store collector.old.keeper) (⟦<MemKeeper as Keeper>⟧.store collector.new.keeper))) }
        ensures calls { calls self.new ≡ raised (calls self.old) };

    /// Hears the bytes of an answer to a request of the collector, in UTF-8. There may be no memory to
    /// read it, or to take it.
    fn collector_hears(
        &mut self,
        collector: &mut Collector<MemKeeper>,
        body: &Bytes,
        now: Moment,
    ) -> Result<CollectorHears, AllocError>
        ensures heard { IfOk result (λ hears. HearsResponse (response_told now body.now) hears now collector.old.memory collector.new.memory (⟦<MemKeeper as Keeper>⟧.store collector.old.keeper) (⟦<MemKeeper as Keeper>⟧.store collector.new.keeper)) }
        ensures wants_memory { IfErr result (λ _. (collector.new ≡ collector.old) ⊎ IsUntaken (response_told now body.now) now collector.old.memory collector.new.memory (⟦<MemKeeper as Keeper>⟧.store collector.old.keeper) (⟦<MemKeeper as Keeper>⟧.store collector.new.keeper)) }
        ensures calls { calls self.new ≡ raised (calls self.old) };

    /// Answers the bytes of a request to a source. There may be no memory for the answer.
    fn source_answer(
        &mut self,
        source: &mut SourceEnd<MemKeeper>,
        charset: Charset,
        body: &Bytes,
        now: Moment,
    ) -> Result<Answer, AllocError>
        ensures answer { IfOk result (λ answer. (said : source_heard.Heard) × source_hearing.Hears now charset body.now said
            × (record { answer = answer; end = source.new.memory } ≡ reply source.old.memory said charset now)) }
        ensures wants_memory { IfErr result (λ _. (source.new.memory ≡ source.old.memory) ⊎ ((said : source_heard.Heard) × source_hearing.Hears now charset body.now said
            × MayHaveReplied source.old.memory said now source.new.memory)) }
        ensures keeper { source.new.keeper ≡ source.old.keeper }
        ensures name { source.new.name ≡ source.old.name }
        ensures calls { calls self.new ≡ raised (calls self.old) };

    /// Hears the bytes of a reply to a source, in UTF-8. There may be no memory to read it.
    fn source_hears(
        &mut self,
        source: &mut SourceEnd<MemKeeper>,
        body: &Bytes,
        now: Moment,
    ) -> Result<Hears, AllocError>
        ensures heard { IfOk result (λ hears. HearsTold (told body.now) (offers_told now body.now) hears now source.old.memory source.new.memory) }
        ensures wants_memory { OnErr result (source.new.memory ≡ source.old.memory) }
        ensures keeper { source.new.keeper ≡ source.old.keeper }
        ensures name { source.new.name ≡ source.old.name }
        ensures calls { calls self.new ≡ raised (calls self.old) };
}

/// The answers of the program: those of wef_front.
#[derive(Drop)]
pub struct Shipped {
    alloc: Global,
    calls: u64,
}

impl Shipped {
    /// The answers, of which none was asked for yet. It takes no memory.
    pub fn new(alloc: Global) -> Shipped
        ensures { result.calls ≡ 0 }
    {
        Shipped { alloc, calls: 0 }
    }
}

impl Answers for Shipped {
    ghost calls = { λ shipped. shipped.calls };

    fn collector_answer(
        &mut self,
        collector: &mut Collector<MemKeeper>,
        target: &Target,
        host: &Text,
        charset: Charset,
        body: &Bytes,
        now: Moment,
    ) -> Result<Answer, AllocError> {
        self.calls = self.calls.saturating_add(1);
        wef_front::collector_answer(self.alloc, collector, target, host, charset, body, now)
    }

    fn collector_hears(
        &mut self,
        collector: &mut Collector<MemKeeper>,
        body: &Bytes,
        now: Moment,
    ) -> Result<CollectorHears, AllocError> {
        self.calls = self.calls.saturating_add(1);
        wef_front::collector_hears(self.alloc, collector, body, now)
    }

    fn source_answer(
        &mut self,
        source: &mut SourceEnd<MemKeeper>,
        charset: Charset,
        body: &Bytes,
        now: Moment,
    ) -> Result<Answer, AllocError> {
        self.calls = self.calls.saturating_add(1);
        wef_front::source_answer(self.alloc, source, charset, body, now)
    }

    fn source_hears(
        &mut self,
        source: &mut SourceEnd<MemKeeper>,
        body: &Bytes,
        now: Moment,
    ) -> Result<Hears, AllocError> {
        self.calls = self.calls.saturating_add(1);
        wef_front::source_hears(self.alloc, source, body, now)
    }
}
