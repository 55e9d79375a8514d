//! What the rows know of a subscription.

ghost use Rattle.std.specs.FinMap as map;
ghost use Rattle.std.specs.Prelude.{◌≡◌, true, false, IfErr, IfOk, IfSome, OnOk};
ghost use Rattle.wef_collector_rows.specs.Answers as answers;
ghost use Rattle.wef_collector_rows.specs.Faults.{collector_store};
ghost use Rattle.wef_collector_rows.specs.Forms.{AreFormed, is_subscription_row};
ghost use Rattle.wef_collector_rows.specs.Judged.{IsFormedAt, JudgesName};
ghost use Rattle.wef_collector_rows.specs.Keys.{subscription_key};
ghost use Rattle.wef_collector_rows.specs.Standing as spec;
ghost use Rattle.wef_documents.specs.Kept.{read_kept};
ghost use Rattle.wef_keeper.specs.Access as access;
ghost use Rattle.wef_keeper.specs.Calls.{fails};

use crate::faults::CollectorFault;
use crate::forms::{CollectorForm, kept_subscription};
use crate::keys::subscription_key;
use wef_base::SubId;
use wef_eventing::Subscription;
use wef_keeper::access::row;
use wef_keeper::forms::formed_cell;
use wef_keeper::{Cell, Keeper, Row, StoreFault};

/// What the collector knows of a subscription's name.
#[derive(Debug, Drop)]
pub enum Standing {
    /// No subscription has the name.
    Unknown,
    /// The subscription was ended. What was kept for it is still there.
    Ended(Subscription),
    Live(Subscription),
}

/// A live subscription.
pub fn live_in<K: Keeper>(keeper: &mut K, sub: &SubId) -> Result<Subscription, CollectorFault>
    requires { access.IsReady (K.store keeper.old) }
    ensures ok { IfSome (K.store keeper.new).rows (λ rows. IfOk result (λ subscription. spec.standing rows sub.now ≡ Standing.Live subscription)) }
    ensures judged { IfSome (K.store keeper.new).rows (λ rows. JudgesName result rows sub.now) }
    ensures refusal { IfErr result (λ fault. answers.RefusesName fault (K.store keeper.new).rows sub.now) }
    ensures reads { access.Reads AreFormed (fails collector_store result) (K.store keeper.old) (K.store keeper.new) }
{
    match standing_in(keeper, sub)? {
        Standing::Live(subscription) => Ok(subscription),
        Standing::Ended(_) => Err(CollectorFault::Ended),
        Standing::Unknown => Err(CollectorFault::NoSubscription),
    }
}

/// Refuses the name of no subscription. One that has ended is known.
pub fn known_in<K: Keeper>(keeper: &mut K, sub: &SubId) -> Result<(), CollectorFault>
    requires { access.IsReady (K.store keeper.old) }
    ensures ok { IfSome (K.store keeper.new).rows (λ rows. OnOk result (answers.is_known (spec.standing rows sub.now) ≡ true)) }
    ensures judged { IfSome (K.store keeper.new).rows (λ rows. JudgesName result rows sub.now) }
    ensures refusal { IfErr result (λ fault. answers.RefusesUnknown fault (K.store keeper.new).rows sub.now) }
    ensures reads { access.Reads AreFormed (fails collector_store result) (K.store keeper.old) (K.store keeper.new) }
{
    match standing_in(keeper, sub)? {
        Standing::Unknown => Err(CollectorFault::NoSubscription),
        Standing::Ended(_) => Ok(()),
        Standing::Live(_) => Ok(()),
    }
}

/// What rows know of a subscription's name.
pub fn standing_in<K: Keeper>(keeper: &mut K, sub: &SubId) -> Result<Standing, StoreFault>
    requires { access.IsReady (K.store keeper.old) }
    ensures standing { IfSome (K.store keeper.new).rows (λ rows. IfOk result (λ s. s ≡ spec.standing rows sub.now)) }
    ensures judged { IfSome (K.store keeper.new).rows (λ rows. OnOk result (IsFormedAt (subscription_key sub.now) rows)) }
    ensures reads { access.Reads AreFormed (access.fails result) (K.store keeper.old) (K.store keeper.new) }
{
    let key = subscription_key(sub)?;
    match row(keeper, &key)? {
        Some(row) => standing_of(&row),
        None => Ok(Standing::Unknown),
    }
}

/// What stands at a subscription's key, where a row does.
pub fn subscription_cell<K: Keeper>(keeper: &mut K, sub: &SubId) -> Result<Option<Cell>, StoreFault>
    requires { access.IsReady (K.store keeper.old) }
    ensures cell { IfSome (K.store keeper.new).rows (λ rows. IfOk result (λ cell. cell ≡ map.get rows (subscription_key sub.now))) }
    ensures judged { IfSome (K.store keeper.new).rows (λ rows. OnOk result (IsFormedAt (subscription_key sub.now) rows)) }
    ensures reads { access.Reads AreFormed (access.fails result) (K.store keeper.old) (K.store keeper.new) }
{
    let key = subscription_key(sub)?;
    formed_cell::<CollectorForm, K>(keeper, &key)
}

/// What the row of a subscription's name tells. It fails where the row isn't of its form.
fn standing_of(row: &Row) -> Result<Standing, StoreFault>
    ensures standing { IfOk result (λ s. s ≡ spec.standing_by row.now.value (read_kept row.now.key.sub row.now.body)) }
    ensures formed { OnOk result (is_subscription_row row.now ≡ true) }
    ensures failed { access.fails result ≡ true → is_subscription_row row.now ≡ false }
{
    match kept_subscription(row)? {
        None => Err(StoreFault::Failed),
        Some(subscription) if row.value == 0 => Ok(Standing::Live(subscription)),
        Some(subscription) => Ok(Standing::Ended(subscription)),
    }
}
