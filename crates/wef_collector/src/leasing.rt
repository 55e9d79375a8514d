//! What the collector's calls change of leases, or why they are refused.

ghost use Rattle.std.specs.Prelude.{◌≡◌, option_copied, IsErr, IfErr, IfOk, IfSome, OnOk};
ghost use Rattle.wef_collector.specs.Calls as calls;
ghost use Rattle.wef_collector.specs.Judged as judged;
ghost use Rattle.wef_collector.specs.Responses as responses;
ghost use Rattle.wef_collector_leases.specs.Leases.{IsXmlWish};
ghost use Rattle.wef_collector_rows.specs.Faults.{collector_store};
ghost use Rattle.wef_collector_rows.specs.Forms.{AreFormed};
ghost use Rattle.wef_collector_rows.specs.Judged.{JudgesName};
ghost use Rattle.wef_keeper.specs.Access as access;
ghost use Rattle.wef_keeper.specs.Calls.{Tells, fails};

use crate::responses::{Leasing, Response, leasing_of};
use wef_base::moments::Moment;
use wef_base::{SourceName, SubId, Text};
use wef_collector_leases::Waiting;
use wef_collector_leases::changes::{clear_lease, end_lease, replace_lease};
use wef_collector_rows::CollectorForm;
use wef_collector_rows::faults::CollectorFault;
use wef_collector_rows::standings::known_in;
use wef_keeper::{Changes, Keeper, StoreFault};

/// What an answer to the request that waits for it changes.
pub fn response_changes<K: Keeper>(
    keeper: &mut K,
    waiting: Option<&Waiting>,
    response: &Response,
    now: Moment,
) -> Result<Changes<CollectorForm>, CollectorFault>
    requires wish { IfSome (option_copied waiting) (λ w. IsXmlWish w.wants) }
    requires taken { responses.CanBeTaken response.now }
    requires ready { access.IsReady (K.store keeper.old) }
    ensures effect { IfSome (K.store keeper.new).rows (λ rows. Tells collector_store result (responses.waiting_effect (option_copied waiting.entry) response.now now rows)) }
    ensures judged { IfSome (K.store keeper.new).rows (λ rows. judged.JudgesResponse result rows (option_copied waiting.entry) response.now now) }
    ensures listed { IfErr result calls.OfResponse }
    ensures reads { access.Reads AreFormed (fails collector_store result) (K.store keeper.old) (K.store keeper.new) }
{
    let Some(waiting) = waiting else {
        return Err(CollectorFault::NotAsked);
    };
    let Some(leasing) = leasing_of(response, &waiting.wants, now)? else {
        return Err(CollectorFault::NotAsked);
    };
    Ok(lease_changes(keeper, &waiting.sub, &waiting.source, leasing)?)
}

/// What becomes of the lease of a subscription and a source.
fn lease_changes<K: Keeper>(
    keeper: &mut K,
    sub: &SubId,
    source: &SourceName,
    leasing: Leasing,
) -> Result<Changes<CollectorForm>, StoreFault>
    requires kept { responses.CanBeKept leasing }
    requires ready { access.IsReady (K.store keeper.old) }
    ensures changes { IfSome (K.store keeper.new).rows (λ rows. IfOk result (λ changes. changes ≡ responses.lease_changes rows sub.now source.now leasing)) }
    ensures judged { IfSome (K.store keeper.new).rows (λ rows. OnOk result (judged.IsLeasingJudged rows sub.now source.now leasing)) }
    ensures reads { access.Reads AreFormed (access.fails result) (K.store keeper.old) (K.store keeper.new) }
{
    match leasing {
        Leasing::Leases(lease) => replace_lease(keeper, sub, source, lease),
        Leasing::Clears => clear_lease(keeper, sub, source),
        Leasing::Stays => Ok(Changes::new(sub.as_text().alloc())),
    }
}

/// The lease of a source ends that names its session so. The subscription may have ended.
pub fn source_ended_changes<K: Keeper>(
    keeper: &mut K,
    sub: &SubId,
    source: &SourceName,
    identifier: &Text,
) -> Result<Changes<CollectorForm>, CollectorFault>
    requires { access.IsReady (K.store keeper.old) }
    ensures effect { IfSome (K.store keeper.new).rows (λ rows. Tells collector_store result (calls.source_ended_effect rows sub.now source.now identifier.now)) }
    ensures judged { IfSome (K.store keeper.new).rows (λ rows. judged.JudgesSourceEnded result rows sub.now source.now) }
    ensures listed { IfErr result calls.OfKnown }
    ensures reads { access.Reads AreFormed (fails collector_store result) (K.store keeper.old) (K.store keeper.new) }
{
    known_in(keeper, sub)?;
    Ok(end_lease(keeper, sub, source, identifier)?)
}

/// Refuses the end of a session that couldn't be read: of a subscription that is known, it isn't
/// well-formed.
pub fn unread_end_changes<K: Keeper>(
    keeper: &mut K,
    sub: &SubId,
) -> Result<Changes<CollectorForm>, CollectorFault>
    requires { access.IsReady (K.store keeper.old) }
    ensures refused { IsErr result }
    ensures effect { IfSome (K.store keeper.new).rows (λ rows. Tells collector_store result (calls.unread_end_effect rows sub.now)) }
    ensures judged { IfSome (K.store keeper.new).rows (λ rows. JudgesName result rows sub.now) }
    ensures listed { IfErr result calls.OfUnreadEnd }
    ensures reads { access.Reads AreFormed (fails collector_store result) (K.store keeper.old) (K.store keeper.new) }
{
    known_in(keeper, sub)?;
    Err(CollectorFault::NotWellFormed)
}
