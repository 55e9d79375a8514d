//! The line that settles: sources ask, the collector asks sources, and sources send, until nothing is left.

ghost use Rattle.std.specs.Prelude.{◌≡◌, ◌++◌, ◌∷◌, [], codes, is_some, IfOk, OnOk};
ghost use Rattle.wef_machine.specs.Settling as settling;
ghost use Rattle.wef_machine.specs.States.{declared_names};
ghost use Rattle.wef_machine.specs.Turns as turns;
ghost use Rattle.wef_places.specs.Settling as goings;
ghost use Rattle.wef_safety.specs.Kept.{IsHeld};
ghost use Rattle.wef_world.specs.Exchanged as exchanged;

use crate::deliveries::Delivered;
use crate::ends::Ends;
use crate::source_lines::Polls;
use wef_base::{List, SourceName, SubId, Text};
use wef_machine::Verdict;
use wef_places::places::Used;
use wef_places::{Answers, WorldFault, collecting};

impl Ends {
    /// Lets the sources ask, the collector ask sources, and the sources send, until nothing is left.
    pub(crate) fn settle<A: Answers>(&mut self, answers: &mut A) -> Result<Text, WorldFault>
        requires held { IsHeld self.old }
        ensures state { OnOk result (self.new ≡ turns.settle_step self.old) }
        ensures printed { IfOk result (λ text. text ≡ codes "settled" ++ 10 ∷ []) }
        ensures calls { OnOk result (A.calls answers.new ≡ goings.calls_settling self.old (A.calls answers.old)) }
    {
        self.let_settle(answers)?;
        Ok(Text::from_str(self.alloc, "settled\n")?)
    }

    fn let_settle<A: Answers>(&mut self, answers: &mut A) -> Result<(), WorldFault>
        requires held { IsHeld self.old }
        ensures goes { OnOk result (goings.going self.new (A.calls answers.new) ≡ settling.settle goings.going_steps (goings.going self.old (A.calls answers.old))) }
    {
        self.release()?;
        self.lose_all()?;
        let names = self.sources.names(self.alloc)?;
        let asked = self.ask_all(answers, names.as_slice())?;
        self.request_all(answers)?;
        self.serve_all(answers, asked.as_slice())
    }

    /// Lets the collector give up its leases.
    fn release(&mut self) -> Result<(), WorldFault>
        requires held { IsHeld self.old }
        ensures state { OnOk result (self.new ≡ turns.release_step self.old) }
        ensures held { OnOk result (IsHeld self.new) }
    {
        collecting::release(&mut self.collector, self.alloc)
    }

    /// Lets each source that runs give up waiting for all answers.
    fn lose_all(&mut self) -> Result<(), WorldFault>
        requires held { IsHeld self.old }
        ensures state { OnOk result (self.new ≡ turns.lose_step self.old) }
        ensures held { OnOk result (IsHeld self.new) }
    {
        let names = self.sources.names(self.alloc)?;
        self.lose_each(names.as_slice())
    }

    fn lose_each(&mut self, names: &[SourceName]) -> Result<(), WorldFault>
        ensures { OnOk result (self.new ≡ turns.lose_each self.old names.now) }
    {
        for name in names {
            self.lose_one(name)?;
        }
        Ok(())
    }

    fn lose_one(&mut self, source: &SourceName) -> Result<(), WorldFault>
        ensures { OnOk result (self.new ≡ turns.lose_at self.old source.now) }
    {
        let alloc = self.alloc;
        match self.sources.slot_mut(source) {
            Some(slot) => slot.lose_all(alloc),
            None => Ok(()),
        }
    }

    /// Brings what was sent to its end, and answers what became of it.
    fn bring_sent<A: Answers>(
        &mut self,
        answers: &mut A,
        sent: Option<u64>,
    ) -> Result<Option<Delivered>, WorldFault>
        requires held { IsHeld self.old }
        ensures goes { OnOk result (goings.going self.new (A.calls answers.new) ≡ exchanged.brought sent (goings.going self.old (A.calls answers.old))) }
        ensures came { IfOk result (λ delivered. delivered ≡ exchanged.came sent self.old) }
        ensures held { OnOk result (IsHeld self.new) }
    {
        match sent {
            Some(number) => self.bring(answers, number),
            None => Ok(None),
        }
    }

    /// Brings what was sent to its end, and the answer to it to the other one. Answers what became of the
    /// answer.
    fn exchange<A: Answers>(
        &mut self,
        answers: &mut A,
        sent: Option<u64>,
    ) -> Result<Option<Delivered>, WorldFault>
        requires held { IsHeld self.old }
        ensures goes { OnOk result (goings.going self.new (A.calls answers.new) ≡ exchanged.brought_both sent (goings.going self.old (A.calls answers.old))) }
        ensures came { IfOk result (λ delivered. delivered ≡ exchanged.came_back sent self.old) }
        ensures held { OnOk result (IsHeld self.new) }
    {
        let delivered = self.bring_sent(answers, sent)?;
        self.bring_sent(answers, answer_in(&delivered))
    }

    /// Lets a source ask, and answers whether the work on it goes on.
    fn ask_one<A: Answers>(
        &mut self,
        answers: &mut A,
        source: &SourceName,
    ) -> Result<bool, WorldFault>
        requires held { IsHeld self.old }
        ensures goes { IfOk result (λ goes. (goings.going self.new (A.calls answers.new), goes) ≡ goings.ask_going source.now (goings.going self.old (A.calls answers.old))) }
        ensures held { OnOk result (IsHeld self.new) }
    {
        let asked = self.let_ask(source)?;
        let answer = self.exchange(answers, ask_in(&asked))?;
        Ok(answer.is_some())
    }

    /// Lets sources ask, and answers those on which the work goes on.
    fn ask_all<A: Answers>(
        &mut self,
        answers: &mut A,
        names: &[SourceName],
    ) -> Result<List<SourceName>, WorldFault>
        requires held { IsHeld self.old }
        ensures goes { IfOk result (λ left. (goings.going self.new (A.calls answers.new), left) ≡ settling.asked goings.going_steps names.now (goings.going self.old (A.calls answers.old))) }
        ensures held { OnOk result (IsHeld self.new) }
    {
        let mut left = List::new(self.alloc);
        for name in names {
            if self.ask_one(answers, name)? {
                left.push(name.clone()?)?;
            }
        }
        Ok(left)
    }

    /// Lets the collector send its next request, and answers whether there may be one more.
    fn request_one<A: Answers>(&mut self, answers: &mut A) -> Result<bool, WorldFault>
        requires held { IsHeld self.old }
        ensures goes { IfOk result (λ goes. (goings.going self.new (A.calls answers.new), goes) ≡ goings.request_going (goings.going self.old (A.calls answers.old))) }
        ensures held { OnOk result (IsHeld self.new) }
    {
        let sent = self.let_request()?;
        let answer = self.exchange(answers, sent)?;
        Ok(moves_in(&answer))
    }

    /// Lets the collector send requests until there are no more.
    fn request_all<A: Answers>(&mut self, answers: &mut A) -> Result<(), WorldFault>
        requires held { IsHeld self.old }
        ensures goes { OnOk result (goings.going self.new (A.calls answers.new) ≡ settling.requested goings.going_steps (goings.going self.old (A.calls answers.old))) }
        ensures held { OnOk result (IsHeld self.new) }
    {
        'requests: loop {
            let goes = self.request_one(answers)?;
            if !goes {
                return Ok(());
            }
        }
    }

    /// Lets a session send its next batch.
    fn poll_one<A: Answers>(
        &mut self,
        answers: &mut A,
        source: &SourceName,
        sub: &SubId,
    ) -> Result<Verdict, WorldFault>
        requires held { IsHeld self.old }
        ensures goes { IfOk result (λ verdict. (goings.going self.new (A.calls answers.new), verdict) ≡ goings.poll_going source.now sub.now (goings.going self.old (A.calls answers.old))) }
        ensures held { OnOk result (IsHeld self.new) }
    {
        let polled = self.let_poll(source, sub)?;
        let answer = self.exchange(answers, batch_in(&polled))?;
        Ok(verdict_of(&polled, &answer))
    }

    /// Lets a session send until nothing more is to be sent, and answers how that ended.
    fn poll_session<A: Answers>(
        &mut self,
        answers: &mut A,
        source: &SourceName,
        sub: &SubId,
    ) -> Result<Verdict, WorldFault>
        requires held { IsHeld self.old }
        ensures goes { IfOk result (λ verdict. (goings.going self.new (A.calls answers.new), verdict) ≡ settling.polled goings.going_steps source.now sub.now (goings.going self.old (A.calls answers.old))) }
        ensures held { OnOk result (IsHeld self.new) }
    {
        'polls: loop {
            let verdict = self.poll_one(answers, source, sub)?;
            if !goes_on(verdict) {
                return Ok(verdict);
            }
        }
    }

    /// Lets sessions of a source send, until the work on it ends.
    fn serve_each<A: Answers>(
        &mut self,
        answers: &mut A,
        source: &SourceName,
        names: &[SubId],
    ) -> Result<(), WorldFault>
        requires held { IsHeld self.old }
        ensures goes { OnOk result (goings.going self.new (A.calls answers.new) ≡ settling.served goings.going_steps source.now names.now (goings.going self.old (A.calls answers.old))) }
        ensures held { OnOk result (IsHeld self.new) }
    {
        for sub in names {
            let verdict = self.poll_session(answers, source, sub)?;
            if has_ended(verdict) {
                return Ok(());
            }
        }
        Ok(())
    }

    /// The names of the sessions of a source that runs.
    fn sessions(&self, source: &SourceName) -> Result<List<SubId>, WorldFault>
        ensures { IfOk result (λ names. names ≡ turns.sessions_at self.now source.now) }
    {
        match self.sources.slot(source) {
            Some(slot) => slot.session_names(self.alloc),
            None => Ok(List::new(self.alloc)),
        }
    }

    /// Lets the sessions of a source send.
    fn serve_source<A: Answers>(
        &mut self,
        answers: &mut A,
        source: &SourceName,
    ) -> Result<(), WorldFault>
        requires held { IsHeld self.old }
        ensures goes { OnOk result (goings.going self.new (A.calls answers.new)
            ≡ settling.served goings.going_steps source.now (turns.sessions_at self.old source.now) (goings.going self.old (A.calls answers.old))) }
        ensures held { OnOk result (IsHeld self.new) }
    {
        let names = self.sessions(source)?;
        self.serve_each(answers, source, names.as_slice())
    }

    /// Lets the sessions of sources send, each source with those that it has when its turn comes.
    fn serve_all<A: Answers>(
        &mut self,
        answers: &mut A,
        names: &[SourceName],
    ) -> Result<(), WorldFault>
        requires held { IsHeld self.old }
        ensures goes { OnOk result (goings.going self.new (A.calls answers.new) ≡ settling.all_served goings.going_steps names.now (goings.going self.old (A.calls answers.old))) }
    {
        for name in names {
            self.serve_source(answers, name)?;
        }
        Ok(())
    }
}

/// The number of the answer to a message, where there is one.
fn answer_in(delivered: &Option<Delivered>) -> Option<u64>
    ensures { result ≡ exchanged.answer_in delivered.now }
{
    match delivered {
        Some(delivered) => delivered.answer,
        None => None,
    }
}

/// Whether a session goes on by a message, or a lease stands.
fn moves_in(delivered: &Option<Delivered>) -> bool
    ensures { result ≡ exchanged.moves_in delivered.now }
{
    match delivered {
        Some(delivered) => delivered.moves,
        None => false,
    }
}

/// The number of the ask that a source sent, where it sent one.
fn ask_in(asked: &Option<Used<Option<u64>>>) -> Option<u64>
    ensures { result ≡ exchanged.ask_in asked.now }
{
    match asked {
        Some(Used::Answered(sent)) => *sent,
        _ => None,
    }
}

/// The number of the batch that a poll sent. A heartbeat isn't delivered.
fn batch_in(polled: &Option<Used<Polls>>) -> Option<u64>
    ensures { result ≡ exchanged.batch_in polled.now }
{
    match polled {
        Some(Used::Answered(Polls::Sent(number))) => Some(*number),
        _ => None,
    }
}

/// How a poll ended, by what it came to, and by what became of the answer to its batch.
fn verdict_of(polled: &Option<Used<Polls>>, answer: &Option<Delivered>) -> Verdict
    ensures { result ≡ exchanged.verdict_of polled.now answer.now }
{
    match polled {
        Some(Used::Closed(_)) => Verdict::Ended,
        Some(Used::Answered(Polls::Spent)) => Verdict::Ended,
        Some(Used::Answered(Polls::Sent(_))) => verdict_back(answer),
        _ => Verdict::Enough,
    }
}

/// How a poll ended that sent a batch, by what became of the answer.
fn verdict_back(answer: &Option<Delivered>) -> Verdict
    ensures { result ≡ exchanged.verdict_back answer.now }
{
    match answer {
        None => Verdict::Ended,
        Some(answer) if answer.moves => Verdict::More,
        Some(_) => Verdict::Enough,
    }
}

/// Whether a session sends once more.
fn goes_on(verdict: Verdict) -> bool
    ensures { result ≡ settling.is_more verdict }
{
    matches!(verdict, Verdict::More)
}

/// Whether the work on a source ends.
fn has_ended(verdict: Verdict) -> bool
    ensures { result ≡ settling.is_ended verdict }
{
    matches!(verdict, Verdict::Ended)
}
