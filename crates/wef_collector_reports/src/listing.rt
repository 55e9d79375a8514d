//! The subscriptions that are kept, one after the other.

ghost use Rattle.std.specs.List.{filter_map};
ghost use Rattle.std.specs.Prelude.{◌≡◌, [], ◌∷◌, ◌++◌, IfOk, IfSome, OnOk};
ghost use Rattle.wef_collector_reports.specs.Listing as spec;
ghost use Rattle.wef_collector_rows.specs.Forms.{AreFormed};
ghost use Rattle.wef_collector_rows.specs.Judged.{AreAllFormed};
ghost use Rattle.wef_collector_rows.specs.Standing as standings;
ghost use Rattle.wef_keeper.specs.Access as access;

use std::alloc::{AllocError, Global};
use wef_base::{List, SubId};
use wef_collector_rows::CollectorForm;
use wef_collector_rows::keys::subscriptions_start;
use wef_documents::read_kept;
use wef_eventing::Subscription;
use wef_keeper::forms::formed_section;
use wef_keeper::{Depth, Keeper, Row, StoreFault};

/// A subscription that is kept.
#[derive(Debug, Drop)]
pub struct Listed {
    pub subscription: Subscription,
    /// Whether it is live. Otherwise it was ended.
    pub live: bool,
}

/// The subscriptions of the rows, in the order of their names.
pub fn list_subscriptions<K: Keeper>(
    keeper: &mut K,
    alloc: Global,
) -> Result<List<Listed>, StoreFault>
    requires { access.IsReady (K.store keeper.old) }
    ensures list { IfSome (K.store keeper.new).rows (λ rows. IfOk result (λ list. list ≡ spec.listed rows)) }
    ensures judged { IfSome (K.store keeper.new).rows (λ rows. OnOk result (AreAllFormed (standings.subscription_rows rows))) }
    ensures texts { IfOk result spec.AreXmlListed }
    ensures reads { access.Reads AreFormed (access.fails result) (K.store keeper.old) (K.store keeper.new) }
{
    let subscriptions = subscription_rows(keeper, alloc)?;
    Ok(listed_in(alloc, subscriptions.as_slice())?)
}

/// The rows of all subscriptions, in the order of their names.
pub fn subscription_rows<K: Keeper>(keeper: &mut K, alloc: Global) -> Result<List<Row>, StoreFault>
    requires { access.IsReady (K.store keeper.old) }
    ensures rows { IfSome (K.store keeper.new).rows (λ rows. IfOk result (λ found. found ≡ standings.subscription_rows rows)) }
    ensures judged { IfSome (K.store keeper.new).rows (λ rows. OnOk result (AreAllFormed (standings.subscription_rows rows))) }
    ensures reads { access.Reads AreFormed (access.fails result) (K.store keeper.old) (K.store keeper.new) }
{
    let start = subscriptions_start(alloc);
    formed_section::<CollectorForm, K>(keeper, &start, Depth::Kind)
}

fn listed_in(alloc: Global, rows: &[Row]) -> Result<List<Listed>, AllocError>
    ensures list { IfOk result (λ list. list ≡ filter_map spec.listed_of rows.now) }
    ensures texts { IfOk result spec.AreXmlListed }
{
    let mut list = List::new(alloc);
    for row in rows {
        push_listed(&mut list, row)?;
    }
    Ok(list)
}

fn push_listed(list: &mut List<Listed>, row: &Row) -> Result<(), AllocError>
    ensures list { OnOk result (list.new ≡ list.old ++ filter_map spec.listed_of (row.now ∷ [])) }
    ensures texts { OnOk result (spec.AreXmlListed list.old → spec.AreXmlListed list.new) }
{
    match listed_of(row)? {
        Some(listed) => list.push(listed),
        None => Ok(()),
    }
}

fn listed_of(row: &Row) -> Result<Option<Listed>, AllocError>
    ensures listed { IfOk result (λ listed. listed ≡ spec.listed_of row.now) }
    ensures texts { IfOk result (λ listed. IfSome listed spec.IsXmlListed) }
{
    let Some(name) = SubId::named(&row.key.sub)? else {
        return Ok(None);
    };
    match read_kept(&name, &row.body)? {
        Some(subscription) => Ok(Some(Listed {
            subscription,
            live: row.value == 0,
        })),
        None => Ok(None),
    }
}
