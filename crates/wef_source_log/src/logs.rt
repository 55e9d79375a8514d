//! The log.

ghost use Rattle.std.specs.List.{AllByRecursion};
ghost use Rattle.std.specs.Prelude.{◌≡◌, ◌+◌, ◌<◌, ◌≤◌, ◌++◌, take, IfOk, IfErr, IfSome, OnOk, MatchResult};
ghost use Rattle.wef_event.specs.Events as the_event;
ghost use Rattle.wef_keeper.specs.Access as access;
ghost use Rattle.wef_keeper.specs.Calls.{DoesWith, IsCall, Looks, fails};
ghost use Rattle.wef_keeper.specs.Keeping as keeping;
ghost use Rattle.wef_keeper.specs.declared.keeping.Plan.TheVariants.{Done, Fails};
ghost use Rattle.wef_source_log.specs.Answers as answers;
ghost use Rattle.wef_source_log.specs.Faults.{log_store};
ghost use Rattle.wef_source_log.specs.Forms.{AreFormed};
ghost use Rattle.wef_source_log.specs.Judged as judged;
ghost use Rattle.wef_source_log.specs.LogWindow as windows;

use crate::changing::{start_in, write_in};
use crate::faults::LogFault;
use crate::reading::{first_of, last_of, page_of};
use std::alloc::Global;
use std::marker::Model;
use wef_base::numbers::MAX;
use wef_base::{ChannelName, List};
use wef_event::Event;
use wef_keeper::{Keeper, MemKeeper, Plan, access};

/// A log that keeps the last records of each channel in a store.
#[derive(Drop)]
pub struct Log<K> {
    keeper: K,
    boot: u64,
}

impl<K> Model for Log<K> {
    ghost use Rattle.std.specs.Coded.{code_by, coded_ℕ, coded×};
    ghost use Rattle.std.specs.Prelude.{ℕ, refl};
    ghost use Rattle.wef_source_log.specs.State.{LogState};

    ghost Value = { LogState K };

    ghost coded = { code_by (K × ℕ) (coded× K.code coded_ℕ) (λ log. (log.keeper, log.boot)) (λ p. record { keeper = p.0; boot = p.1 }) (λ _. refl) };

    ghost view = { λ log. record { keeper = log.keeper; boot = log.boot } };
}

impl<K: Keeper> Log<K> {
    /// Starts a source over its store: the boot number is one greater from now on, and 1 at the
    /// first start. The first start keeps the capacity, from 1 to 1,000,000 records a channel; later
    /// ones leave it. Both stand in one commit. A refused start hands the store back.
    pub fn start(alloc: Global, keeper: K, capacity: u64) -> Result<Log<K>, (K, LogFault)>
        requires least { 1 ≤ capacity }
        requires greatest { capacity ≤ 1000000 }
        ensures call { MatchResult result
            (λ log. IsCall log_store AreFormed (λ found. answers.start_effect found capacity) answers.next_boot (Ok log.boot) (K.store keeper) (K.store log.keeper))
            (λ refused. IsCall log_store AreFormed (λ found. answers.start_effect found capacity) answers.next_boot (Err refused.1) (K.store keeper) (K.store refused.0)) }
        ensures judged { MatchResult result
            (λ log. DoesWith log_store AreFormed (λ found. answers.start_effect found capacity) answers.next_boot (λ answer found after. judged.JudgesStart answer found) (Ok log.boot) (K.store keeper) (K.store log.keeper))
            (λ refused. DoesWith log_store AreFormed (λ found. answers.start_effect found capacity) answers.next_boot (λ answer found after. judged.JudgesStart answer found) (Err refused.1) (K.store keeper) (K.store refused.0)) }
        ensures listed { IfErr result (λ refused. answers.RefusesStart refused.1) }
    {
        let mut keeper = keeper;
        match start_in(alloc, &mut keeper, capacity) {
            Ok(boot) => Ok(Log { keeper, boot }),
            Err(fault) => Err((keeper, fault)),
        }
    }

    /// The boot number. It takes no memory.
    pub fn boot(&self) -> u64
        ensures { result ≡ self.now.boot }
    {
        self.boot
    }

    /// Writes an event as the next record of its channel, and answers its number. Where the window
    /// is full, its first record leaves it. All of it stands in one commit.
    pub fn write(&mut self, event: &Event) -> Result<u64, LogFault>
        ensures call { IsCall log_store AreFormed (λ found. answers.write_effect found event.now) (λ found. answers.next_number found event.now) result (K.store self.old.keeper) (K.store self.new.keeper) }
        ensures judged { DoesWith log_store AreFormed (λ found. answers.write_effect found event.now) (λ found. answers.next_number found event.now)
            (λ answer found after. judged.JudgesWrite answer event.now.channel found × IfOk answer (answers.ExtendsHistory found after event.now)) result (K.store self.old.keeper) (K.store self.new.keeper) }
        ensures boot { self.new.boot ≡ self.old.boot }
    {
        write_in(&mut self.keeper, event)
    }

    /// The first number of a channel's window: 1 where nothing was written.
    #[tactic(auto, using(crate::proofs::Looking::looked_then, crate::proofs::Looking::not_looked))]
    pub fn first(&mut self, channel: &ChannelName) -> Result<u64, LogFault>
        ensures ok { IfSome (K.store self.new.keeper).rows (λ rows. IfOk result (λ number. number ≡ windows.first_of rows channel.now)) }
        ensures within { IfOk result (λ number. number ≤ MAX + 1) }
        ensures judged { IfSome (K.store self.new.keeper).rows (λ rows. OnOk result (judged.JudgesFirst channel.now rows)) }
        ensures refusal { IfErr result answers.RefusesRead }
        ensures looks { Looks log_store AreFormed result (K.store self.old.keeper) (K.store self.new.keeper) }
        ensures boot { self.new.boot ≡ self.old.boot }
    {
        self.open()?;
        self.first_ready(channel)
    }

    /// The last number of a channel: 0 where nothing was written.
    #[tactic(auto, using(crate::proofs::Looking::looked_then, crate::proofs::Looking::not_looked))]
    pub fn last(&mut self, channel: &ChannelName) -> Result<u64, LogFault>
        ensures ok { IfSome (K.store self.new.keeper).rows (λ rows. IfOk result (λ number. number ≡ windows.last_of rows channel.now)) }
        ensures within { IfOk result (λ number. number ≤ MAX) }
        ensures judged { IfSome (K.store self.new.keeper).rows (λ rows. OnOk result (judged.JudgesLast channel.now rows)) }
        ensures refusal { IfErr result answers.RefusesRead }
        ensures looks { Looks log_store AreFormed result (K.store self.old.keeper) (K.store self.new.keeper) }
        ensures boot { self.new.boot ≡ self.old.boot }
    {
        self.open()?;
        self.last_ready(channel)
    }

    /// The first `max` records of a channel's window above a number, by number. The rest are those
    /// above the page's last number.
    #[tactic(auto, using(crate::proofs::Looking::looked_then, crate::proofs::Looking::not_looked))]
    pub fn page(
        &mut self,
        channel: &ChannelName,
        after: u64,
        max: u32,
    ) -> Result<List<Event>, LogFault>
        requires { 1 ≤ max }
        ensures page { IfSome (K.store self.new.keeper).rows (λ rows. IfOk result (λ page. page ≡ take max (windows.records_after rows channel.now after))) }
        ensures rest { IfSome (K.store self.new.keeper).rows (λ rows. IfOk result (λ page. windows.records_after rows channel.now after
            ≡ page ++ windows.records_after rows channel.now (windows.last_number after page))) }
        ensures above { IfOk result (AllByRecursion (λ (event : the_event.Event). after < event.number)) }
        ensures judged { IfSome (K.store self.new.keeper).rows (λ rows. OnOk result (judged.JudgesPage channel.now after max rows)) }
        ensures refusal { IfErr result answers.RefusesRead }
        ensures looks { Looks log_store AreFormed result (K.store self.old.keeper) (K.store self.new.keeper) }
        ensures boot { self.new.boot ≡ self.old.boot }
    {
        self.open()?;
        self.page_ready(channel, after, max)
    }

    /// Opens the store.
    pub fn open(&mut self) -> Result<(), LogFault>
        ensures looks { Looks log_store access.AnyRows result (K.store self.old.keeper) (K.store self.new.keeper) }
        ensures refusal { IfErr result answers.RefusesRead }
        ensures boot { self.new.boot ≡ self.old.boot }
    {
        Ok(access::open(&mut self.keeper)?)
    }

    /// As `first`, in a store that is ready.
    pub fn first_ready(&mut self, channel: &ChannelName) -> Result<u64, LogFault>
        requires { access.IsReady (K.store self.old.keeper) }
        ensures ok { IfSome (K.store self.new.keeper).rows (λ rows. IfOk result (λ number. number ≡ windows.first_of rows channel.now)) }
        ensures within { IfOk result (λ number. number ≤ MAX + 1) }
        ensures judged { IfSome (K.store self.new.keeper).rows (λ rows. OnOk result (judged.JudgesFirst channel.now rows)) }
        ensures refusal { IfErr result answers.RefusesRead }
        ensures reads { access.Reads AreFormed (fails log_store result) (K.store self.old.keeper) (K.store self.new.keeper) }
        ensures boot { self.new.boot ≡ self.old.boot }
    {
        Ok(first_of(&mut self.keeper, channel)?)
    }

    /// As `last`, in a store that is ready.
    pub fn last_ready(&mut self, channel: &ChannelName) -> Result<u64, LogFault>
        requires { access.IsReady (K.store self.old.keeper) }
        ensures ok { IfSome (K.store self.new.keeper).rows (λ rows. IfOk result (λ number. number ≡ windows.last_of rows channel.now)) }
        ensures within { IfOk result (λ number. number ≤ MAX) }
        ensures judged { IfSome (K.store self.new.keeper).rows (λ rows. OnOk result (judged.JudgesLast channel.now rows)) }
        ensures refusal { IfErr result answers.RefusesRead }
        ensures reads { access.Reads AreFormed (fails log_store result) (K.store self.old.keeper) (K.store self.new.keeper) }
        ensures boot { self.new.boot ≡ self.old.boot }
    {
        Ok(last_of(&mut self.keeper, channel)?)
    }

    /// As `page`, in a store that is ready.
    pub fn page_ready(
        &mut self,
        channel: &ChannelName,
        after: u64,
        max: u32,
    ) -> Result<List<Event>, LogFault>
        requires max { 1 ≤ max }
        requires ready { access.IsReady (K.store self.old.keeper) }
        ensures page { IfSome (K.store self.new.keeper).rows (λ rows. IfOk result (λ page. page ≡ take max (windows.records_after rows channel.now after))) }
        ensures rest { IfSome (K.store self.new.keeper).rows (λ rows. IfOk result (λ page. windows.records_after rows channel.now after
            ≡ page ++ windows.records_after rows channel.now (windows.last_number after page))) }
        ensures above { IfOk result (AllByRecursion (λ (event : the_event.Event). after < event.number)) }
        ensures judged { IfSome (K.store self.new.keeper).rows (λ rows. OnOk result (judged.JudgesPage channel.now after max rows)) }
        ensures refusal { IfErr result answers.RefusesRead }
        ensures reads { access.Reads AreFormed (fails log_store result) (K.store self.old.keeper) (K.store self.new.keeper) }
        ensures boot { self.new.boot ≡ self.old.boot }
    {
        Ok(page_of(&mut self.keeper, channel, after, max)?)
    }

    /// The store, as it stands.
    pub fn into_keeper(self) -> K
        ensures { result ≡ self.keeper }
    {
        let Log { keeper, boot: _ } = self;
        keeper
    }
}

impl Log<MemKeeper> {
    /// Plans the next commit of the store.
    pub fn arrange(&mut self, plan: Plan)
        ensures { self.new ≡ record self.old { keeper = record self.old.keeper { plan = plan } } }
    {
        self.keeper.arrange(plan);
    }

    /// Arms the next commit of the store: it fails, and its changes are kept where `after` is true.
    pub fn fail_next(&mut self, after: bool)
        ensures { self.new ≡ record self.old { keeper = record self.old.keeper { plan = Fails after } } }
    {
        self.keeper.fail_next(after);
    }

    /// Disarms the next commit of the store.
    pub fn calm(&mut self)
        ensures { self.new ≡ record self.old { keeper = record self.old.keeper { plan = Done } } }
    {
        self.keeper.calm();
    }

    /// Whether the next commit of the store is armed.
    pub fn is_armed(&self) -> bool
        ensures { result ≡ keeping.is_armed self.now.keeper.plan }
    {
        self.keeper.is_armed()
    }
}
