//! The calls that only read: each opens the store, and tests each row that it reads.

ghost use Rattle.std.specs.Prelude.{◌≡◌, ◌≤◌, ◌++◌, true, take, IfOk, IfErr, IfSome, OnOk};
ghost use Rattle.wef_collector.specs.Asking.{CanBeRequested, next_request};
ghost use Rattle.wef_collector.specs.Calls.{no_effect};
ghost use Rattle.wef_collector.specs.Judged as judged;
ghost use Rattle.wef_collector.specs.Memories.{memory_asked};
ghost use Rattle.wef_collector.specs.Offers.{CanAllBeOffered, offers};
ghost use Rattle.wef_collector_reports.specs.Judged.{is_report_formed};
ghost use Rattle.wef_collector_reports.specs.Listing.{listed};
ghost use Rattle.wef_collector_reports.specs.Report.{heard_rows, report};
ghost use Rattle.wef_collector_rows.specs.Answers as answers;
ghost use Rattle.wef_collector_rows.specs.Bookmarks.{bookmark_of, bookmark_rows};
ghost use Rattle.wef_collector_rows.specs.Faults.{collector_store};
ghost use Rattle.wef_collector_rows.specs.Forms.{AreFormed};
ghost use Rattle.wef_collector_rows.specs.Held as held;
ghost use Rattle.wef_collector_rows.specs.Judged.{AreAllFormed, JudgesName};
ghost use Rattle.wef_collector_rows.specs.Standing as standings;
ghost use Rattle.wef_collector_rows.specs.declared.standings.Standing.TheVariants.{Live};
ghost use Rattle.wef_collector_statuses.specs.Statuses as silence;
ghost use Rattle.wef_eventing.specs.Addresses.{IsHost};
ghost use Rattle.wef_keeper.specs.Calls.{IsCall, Looks};

use crate::asking::{Request, ask_next};
use crate::memories::Memory;
use crate::offering::offers_to;
use std::alloc::Global;
use wef_base::moments::Moment;
use wef_base::{ChannelName, List, SourceName, SubId, Text};
use wef_bookmark::Bookmark;
use wef_collector_reports::held::held_page;
use wef_collector_reports::listing::{Listed, list_subscriptions};
use wef_collector_reports::reporting::report;
use wef_collector_rows::bookmarks::bookmark_of;
use wef_collector_rows::faults::CollectorFault;
use wef_collector_rows::standings::{known_in, live_in};
use wef_collector_statuses::statuses::statuses;
use wef_event::Event;
use wef_eventing::{Offer, Subscription};
use wef_keeper::Keeper;
use wef_keeper::access::open;

/// A live subscription.
#[tactic(auto, using(wef_keeper::proofs::Calls::looks_by))]
pub fn state_in<K: Keeper>(keeper: &mut K, sub: &SubId) -> Result<Subscription, CollectorFault>
    ensures ok { IfSome (K.store keeper.new).rows (λ rows. IfOk result (λ subscription. standings.standing rows sub.now ≡ Live subscription)) }
    ensures judged { IfSome (K.store keeper.new).rows (λ rows. JudgesName result rows sub.now) }
    ensures refusal { IfErr result (λ fault. answers.RefusesName fault (K.store keeper.new).rows sub.now) }
    ensures looks { Looks collector_store AreFormed result (K.store keeper.old) (K.store keeper.new) }
{
    open(keeper)?;
    live_in(keeper, sub)
}

/// The first `max` events that are held of a source's channel with numbers above one, by number;
/// also of a subscription that has ended. The rest are those above the page's last number.
#[tactic(auto, using(wef_keeper::proofs::Calls::looks_by))]
pub fn held_in<K: Keeper>(
    keeper: &mut K,
    sub: &SubId,
    source: &SourceName,
    channel: &ChannelName,
    after: u64,
    max: u32,
) -> Result<List<Event>, CollectorFault>
    requires { 1 ≤ max }
    ensures known { IfSome (K.store keeper.new).rows (λ rows. OnOk result (answers.is_known (standings.standing rows sub.now) ≡ true)) }
    ensures page { IfSome (K.store keeper.new).rows (λ rows. IfOk result (λ page. page ≡ take max (held.held_after rows sub.now source.now channel.now after))) }
    ensures rest { IfSome (K.store keeper.new).rows (λ rows. IfOk result (λ page. held.held_after rows sub.now source.now channel.now after
        ≡ page ++ held.held_after rows sub.now source.now channel.now (held.last_number after page))) }
    ensures judged { IfSome (K.store keeper.new).rows (λ rows. JudgesName result rows sub.now × OnOk result (AreAllFormed (take max (held.held_rows rows sub.now source.now channel.now after)))) }
    ensures refusal { IfErr result (λ fault. answers.RefusesUnknown fault (K.store keeper.new).rows sub.now) }
    ensures looks { Looks collector_store AreFormed result (K.store keeper.old) (K.store keeper.new) }
{
    open(keeper)?;
    known_in(keeper, sub)?;
    Ok(held_page(keeper, sub, source, channel, after, max)?)
}

/// All subscriptions, live or ended, in the order of their names.
#[tactic(auto, using(wef_keeper::proofs::Calls::looks_by))]
pub fn list_in<K: Keeper>(keeper: &mut K, alloc: Global) -> Result<List<Listed>, CollectorFault>
    ensures ok { IfSome (K.store keeper.new).rows (λ rows. IfOk result (λ list. list ≡ listed rows)) }
    ensures judged { IfSome (K.store keeper.new).rows (λ rows. OnOk result (AreAllFormed (standings.subscription_rows rows))) }
    ensures refusal { IfErr result answers.IsOfStore }
    ensures looks { Looks collector_store AreFormed result (K.store keeper.old) (K.store keeper.new) }
{
    open(keeper)?;
    Ok(list_subscriptions(keeper, alloc)?)
}

/// The offers to a source that asks: one for each live subscription that the sources begin, in
/// the order of names. Each goes on from the bookmark that is kept for the source, and its
/// batches come to the host.
#[tactic(auto, using(wef_keeper::proofs::Calls::looks_by))]
pub fn offers_in<K: Keeper>(
    keeper: &mut K,
    alloc: Global,
    source: &SourceName,
    host: &Text,
) -> Result<List<Offer>, CollectorFault>
    ensures ok { IfSome (K.store keeper.new).rows (λ rows. IfOk result (λ list. list ≡ offers rows source.now host.now)) }
    ensures judged { IfSome (K.store keeper.new).rows (λ rows. OnOk result (judged.AreOffersJudged rows source.now)) }
    ensures texts { IsHost host.now → IfOk result CanAllBeOffered }
    ensures refusal { IfErr result answers.IsOfStore }
    ensures call { IsCall collector_store AreFormed no_effect (λ rows. offers rows source.now host.now) result (K.store keeper.old) (K.store keeper.new) }
    ensures looks { Looks collector_store AreFormed result (K.store keeper.old) (K.store keeper.new) }
{
    open(keeper)?;
    Ok(offers_to(keeper, alloc, source, host)?)
}

/// The next request to a source of a subscription that the collector begins, whose answer the
/// collector then waits for. Events come to the host.
#[tactic(auto, using(wef_keeper::proofs::Calls::looks_by))]
pub fn request_in<K: Keeper>(
    keeper: &mut K,
    alloc: Global,
    memory: &mut Memory,
    host: &Text,
    now: Moment,
) -> Result<Option<Request>, CollectorFault>
    ensures ok { IfSome (K.store keeper.new).rows (λ rows. IfOk result (λ asked. asked ≡ next_request rows memory.old.waiting memory.old.ids host.now now)) }
    ensures judged { IfSome (K.store keeper.new).rows (λ rows. OnOk result (judged.JudgesRequest rows memory.old.waiting now)) }
    ensures texts { IsHost host.now → IfOk result (λ asked. IfSome asked CanBeRequested) }
    ensures refusal { IfErr result answers.IsOfStore }
    ensures call { IsCall collector_store AreFormed no_effect (λ rows. next_request rows memory.old.waiting memory.old.ids host.now now) result (K.store keeper.old) (K.store keeper.new) }
    ensures looks { Looks collector_store AreFormed result (K.store keeper.old) (K.store keeper.new) }
    ensures memory { memory.new ≡ memory_asked result memory.old }
{
    open(keeper)?;
    Ok(ask_next(keeper, alloc, memory, host, now)?)
}

/// How far a source was served for a subscription; also for one that has ended.
#[tactic(auto, using(wef_keeper::proofs::Calls::looks_by))]
pub fn bookmark_in<K: Keeper>(
    keeper: &mut K,
    sub: &SubId,
    source: &SourceName,
) -> Result<Bookmark, CollectorFault>
    ensures known { IfSome (K.store keeper.new).rows (λ rows. OnOk result (answers.is_known (standings.standing rows sub.now) ≡ true)) }
    ensures ok { IfSome (K.store keeper.new).rows (λ rows. IfOk result (λ bookmark. bookmark ≡ bookmark_of rows sub.now source.now)) }
    ensures judged { IfSome (K.store keeper.new).rows (λ rows. JudgesName result rows sub.now × OnOk result (AreAllFormed (bookmark_rows rows sub.now source.now))) }
    ensures refusal { IfErr result (λ fault. answers.RefusesUnknown fault (K.store keeper.new).rows sub.now) }
    ensures looks { Looks collector_store AreFormed result (K.store keeper.old) (K.store keeper.new) }
{
    open(keeper)?;
    known_in(keeper, sub)?;
    Ok(bookmark_of(keeper, sub, source)?)
}

/// The report of all that is kept.
#[tactic(auto, using(wef_keeper::proofs::Calls::looks_by))]
pub fn report_in<K: Keeper>(keeper: &mut K, alloc: Global) -> Result<Text, CollectorFault>
    ensures ok { IfSome (K.store keeper.new).rows (λ rows. IfOk result (λ text. text ≡ report rows)) }
    ensures judged { IfSome (K.store keeper.new).rows (λ rows. OnOk result (is_report_formed rows ≡ true)) }
    ensures refusal { IfErr result answers.IsOfStore }
    ensures looks { Looks collector_store AreFormed result (K.store keeper.old) (K.store keeper.new) }
{
    open(keeper)?;
    Ok(report(keeper, alloc)?)
}

/// Which sources of a subscription are silent at a moment.
#[tactic(auto, using(wef_keeper::proofs::Calls::looks_by))]
pub fn statuses_in<K: Keeper>(
    keeper: &mut K,
    sub: &SubId,
    now: Moment,
) -> Result<Text, CollectorFault>
    ensures known { IfSome (K.store keeper.new).rows (λ rows. OnOk result (answers.is_known (standings.standing rows sub.now) ≡ true)) }
    ensures ok { IfSome (K.store keeper.new).rows (λ rows. IfOk result (λ text. text ≡ silence.statuses rows sub.now now)) }
    ensures judged { IfSome (K.store keeper.new).rows (λ rows. JudgesName result rows sub.now × OnOk result (AreAllFormed (heard_rows rows sub.now))) }
    ensures refusal { IfErr result (λ fault. answers.RefusesUnknown fault (K.store keeper.new).rows sub.now) }
    ensures looks { Looks collector_store AreFormed result (K.store keeper.old) (K.store keeper.new) }
{
    open(keeper)?;
    statuses(keeper, sub, now)
}
