//! The next source that is to be asked for something.

ghost use Rattle.std.specs.Prelude.{◌≡◌, None, IfOk, IfSome, OnOk};
ghost use Rattle.wef_collector_leases.specs.Judged as judged;
ghost use Rattle.wef_collector_leases.specs.Next as spec;
ghost use Rattle.wef_collector_reports.specs.Listing as listing;
ghost use Rattle.wef_collector_rows.specs.Forms.{AreFormed};
ghost use Rattle.wef_collector_rows.specs.Judged.{AreAllFormed};
ghost use Rattle.wef_collector_rows.specs.Standing.{subscription_rows};
ghost use Rattle.wef_documents.specs.Laws.{HasXmlAddress, HasXmlTexts};
ghost use Rattle.wef_keeper.specs.Access as access;

use crate::due::due_for;
use crate::leases::{Wants, read_lease};
use crate::waiting::WaitingList;
use std::alloc::{AllocError, Global};
use wef_base::SubId;
use wef_base::moments::Moment;
use wef_collector_reports::listing::{Listed, subscription_rows};
use wef_documents::read_kept;
use wef_eventing::{SourceAt, SubKind, Subscription};
use wef_keeper::{Keeper, Row, StoreFault};

/// A source that is to be asked for something for a subscription.
#[derive(Debug, Drop)]
pub struct Due {
    pub subscription: Subscription,
    pub source: SourceAt,
    pub wants: Wants,
}

/// A source that is to be asked for something.
#[derive(Debug, Drop)]
pub struct DueSource {
    pub source: SourceAt,
    pub wants: Wants,
}

/// The first subscription that the collector begins, by the bytes of its name, and the first of its
/// sources so, for which no request waits and one is due; and what is wanted of the source. None
/// where there is none. The rows of the subscriptions are read at once, which are a page at most, and
/// then the lease of one source after the other, up to those of the first subscription that has one.
pub fn next_due<K: Keeper>(
    keeper: &mut K,
    alloc: Global,
    waiting: &WaitingList,
    now: Moment,
) -> Result<Option<Due>, StoreFault>
    requires { access.IsReady (K.store keeper.old) }
    ensures due { IfSome (K.store keeper.new).rows (λ rows. IfOk result (λ due. due ≡ spec.next_due rows waiting.now now)) }
    ensures allowed { IfOk result (λ due. IfSome due spec.IsXmlDue) }
    ensures judged { IfSome (K.store keeper.new).rows (λ rows. OnOk result (judged.JudgesNext rows waiting.now now)) }
    ensures reads { access.Reads AreFormed (access.fails result) (K.store keeper.old) (K.store keeper.new) }
{
    let rows = subscription_rows(keeper, alloc)?;
    first_due(keeper, rows.as_slice(), waiting, now)
}

/// The first that is due of the subscriptions of rows.
fn first_due<K: Keeper>(
    keeper: &mut K,
    subscriptions: &[Row],
    waiting: &WaitingList,
    now: Moment,
) -> Result<Option<Due>, StoreFault>
    requires { access.IsReady (K.store keeper.old) }
    ensures due { IfSome (K.store keeper.new).rows (λ rows. IfOk result (λ due. due ≡ spec.first_of_rows rows waiting.now now subscriptions.now)) }
    ensures allowed { IfOk result (λ due. IfSome due spec.IsXmlDue) }
    ensures judged { IfSome (K.store keeper.new).rows (λ rows. OnOk result (judged.AreJudgedUntil rows waiting.now now subscriptions.now)) }
    ensures reads { access.Reads AreFormed (access.fails result) (K.store keeper.old) (K.store keeper.new) }
{
    for row in subscriptions {
        let due = due_of_row(keeper, row, waiting, now)?;
        if due.is_some() {
            return Ok(due);
        }
    }
    Ok(None)
}

fn due_of_row<K: Keeper>(
    keeper: &mut K,
    row: &Row,
    waiting: &WaitingList,
    now: Moment,
) -> Result<Option<Due>, StoreFault>
    requires { access.IsReady (K.store keeper.old) }
    ensures due { IfSome (K.store keeper.new).rows (λ rows. IfOk result (λ due. due ≡ spec.due_of_row rows waiting.now now row.now)) }
    ensures allowed { IfOk result (λ due. IfSome due spec.IsXmlDue) }
    ensures judged { IfSome (K.store keeper.new).rows (λ rows. OnOk result (judged.IsRowJudged rows waiting.now row.now)) }
    ensures reads { access.Reads AreFormed (access.fails result) (K.store keeper.old) (K.store keeper.new) }
{
    match listed_of(row)? {
        Some(listed) => due_of(keeper, listed, waiting, now),
        None => Ok(None),
    }
}

/// The subscription of a row, as lists have it.
#[tactic(auto, using(crate::proofs::Allowed::listed_allowed))]
fn listed_of(row: &Row) -> Result<Option<Listed>, AllocError>
    ensures listed { IfOk result (λ listed. listed ≡ listing.listed_of row.now) }
    ensures texts { IfOk result (λ listed. IfSome listed (λ l. HasXmlTexts l.subscription)) }
{
    let Some(name) = SubId::named(&row.key.sub)? else {
        return Ok(None);
    };
    match read_kept(&name, &row.body)? {
        Some(subscription) => Ok(Some(Listed {
            subscription,
            live: row.value == 0,
        })),
        None => Ok(None),
    }
}

/// The first source of a subscription that is due.
fn due_of<K: Keeper>(
    keeper: &mut K,
    listed: Listed,
    waiting: &WaitingList,
    now: Moment,
) -> Result<Option<Due>, StoreFault>
    requires texts { HasXmlTexts listed.subscription }
    requires ready { access.IsReady (K.store keeper.old) }
    ensures due { IfSome (K.store keeper.new).rows (λ rows. IfOk result (λ due. due ≡ spec.due_of rows waiting.now now listed)) }
    ensures allowed { IfOk result (λ due. IfSome due spec.IsXmlDue) }
    ensures judged { IfSome (K.store keeper.new).rows (λ rows. OnOk result (judged.IsJudged rows waiting.now listed)) }
    ensures reads { access.Reads AreFormed (access.fails result) (K.store keeper.old) (K.store keeper.new) }
{
    if !begins_here(listed.subscription.kind) {
        return Ok(None);
    }
    let found = least_due(keeper, &listed, waiting, now)?;
    Ok(due_with(listed.subscription, found))
}

fn begins_here(kind: SubKind) -> bool
    ensures { result ≡ spec.begins_here kind }
{
    match kind {
        SubKind::BySource => false,
        SubKind::ByCollector => true,
    }
}

#[tactic(auto, using(crate::proofs::Allowed::due_allowed))]
fn due_with(subscription: Subscription, found: Option<DueSource>) -> Option<Due>
    requires texts { HasXmlTexts subscription }
    requires found { IfSome found spec.IsXmlDueSource }
    ensures due { result ≡ spec.due_with subscription found }
    ensures allowed { IfSome result spec.IsXmlDue }
{
    match found {
        Some(found) => Some(Due {
            subscription,
            source: found.source,
            wants: found.wants,
        }),
        None => None,
    }
}

/// The source of a subscription that is due and whose name comes first.
fn least_due<K: Keeper>(
    keeper: &mut K,
    listed: &Listed,
    waiting: &WaitingList,
    now: Moment,
) -> Result<Option<DueSource>, StoreFault>
    requires texts { HasXmlTexts listed.now.subscription }
    requires ready { access.IsReady (K.store keeper.old) }
    ensures due { IfSome (K.store keeper.new).rows (λ rows. IfOk result (λ due. due ≡ spec.least_due rows waiting.now now listed.now None listed.now.subscription.sources)) }
    ensures allowed { IfOk result (λ due. IfSome due spec.IsXmlDueSource) }
    ensures judged { IfSome (K.store keeper.new).rows (λ rows. OnOk result (judged.AreAsked rows waiting.now listed.now.subscription.name listed.now.subscription.sources)) }
    ensures reads { access.Reads AreFormed (access.fails result) (K.store keeper.old) (K.store keeper.new) }
{
    let mut least = None;
    for source in listed.subscription.sources.as_slice() {
        let due = due_at(keeper, listed, source, waiting, now)?;
        least = earlier(least, due);
    }
    Ok(least)
}

/// The earlier of two sources that are due, by their names.
fn earlier(least: Option<DueSource>, due: Option<DueSource>) -> Option<DueSource>
    ensures { result ≡ spec.earlier least due }
{
    let Some(due) = due else {
        return least;
    };
    match least {
        Some(least) => Some(earlier_of(least, due)),
        None => Some(due),
    }
}

fn earlier_of(least: DueSource, due: DueSource) -> DueSource
    ensures { result ≡ spec.earlier_of least due }
{
    if due.source.name.cmp(&least.source.name).is_lt() {
        due
    } else {
        least
    }
}

/// What is due at a source of a subscription, unless a request waits.
fn due_at<K: Keeper>(
    keeper: &mut K,
    listed: &Listed,
    source: &SourceAt,
    waiting: &WaitingList,
    now: Moment,
) -> Result<Option<DueSource>, StoreFault>
    requires texts { HasXmlAddress source.now }
    requires ready { access.IsReady (K.store keeper.old) }
    ensures due { IfSome (K.store keeper.new).rows (λ rows. IfOk result (λ due. due ≡ spec.due_at rows waiting.now now listed.now source.now)) }
    ensures allowed { IfOk result (λ due. IfSome due spec.IsXmlDueSource) }
    ensures judged { IfSome (K.store keeper.new).rows (λ rows. OnOk result (judged.IsAsked rows waiting.now listed.now.subscription.name source.now)) }
    ensures reads { access.Reads AreFormed (access.fails result) (K.store keeper.old) (K.store keeper.new) }
{
    let subscription = &listed.subscription;
    if waiting.has(&subscription.name, &source.name) {
        return Ok(None);
    }
    let lease = read_lease(keeper, &subscription.name, &source.name)?;
    let wants = due_for(listed.live, now, subscription.expires, lease);
    Ok(wanted_at(source, wants)?)
}

fn wanted_at(source: &SourceAt, wants: Option<Wants>) -> Result<Option<DueSource>, AllocError>
    ensures { IfOk result (λ due. due ≡ spec.wanted_at source.now wants) }
{
    match wants {
        Some(wants) => Ok(Some(DueSource {
            source: source.clone()?,
            wants,
        })),
        None => Ok(None),
    }
}
