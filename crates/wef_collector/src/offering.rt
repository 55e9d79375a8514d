//! The offers to sources that ask for their subscriptions.

ghost use Rattle.std.specs.List.{All, filter_map, list_all};
ghost use Rattle.std.specs.Prelude.{◌≡◌, [], ◌∷◌, ◌++◌, true, IfOk, IfSome, OnOk};
ghost use Rattle.wef_collector.specs.Judged as judged;
ghost use Rattle.wef_collector.specs.Offers as spec;
ghost use Rattle.wef_collector_reports.specs.Listing.{IsXmlListed};
ghost use Rattle.wef_collector_rows.specs.Bookmarks.{bookmark_rows};
ghost use Rattle.wef_collector_rows.specs.Forms.{AreFormed};
ghost use Rattle.wef_collector_rows.specs.Judged.{AreAllFormed};
ghost use Rattle.wef_eventing.specs.Addresses.{IsHost};
ghost use Rattle.wef_eventing.specs.Sending.{AreXmlQueries, CanBeOffered, HasXmlTexts};
ghost use Rattle.wef_keeper.specs.Access as access;
ghost use Rattle.wef_xml.specs.Good.{IsXmlText};

use std::alloc::{AllocError, Global};
use wef_base::{List, SourceName, SubId, Text};
use wef_bookmark::Bookmark;
use wef_collector_reports::listing::{Listed, list_subscriptions};
use wef_collector_rows::bookmarks::bookmark_of;
use wef_eventing::{Offer, SubKind, Subscribe, Subscription, delivery_address};
use wef_ids::id_text;
use wef_keeper::{Keeper, StoreFault};

/// The offers to a source, in the order of their subscriptions' names. Batches for them go to the
/// host.
pub fn offers_to<K: Keeper>(
    keeper: &mut K,
    alloc: Global,
    source: &SourceName,
    host: &Text,
) -> Result<List<Offer>, StoreFault>
    requires { access.IsReady (K.store keeper.old) }
    ensures offers { IfSome (K.store keeper.new).rows (λ rows. IfOk result (λ offers. offers ≡ spec.offers rows source.now host.now)) }
    ensures judged { IfSome (K.store keeper.new).rows (λ rows. OnOk result (judged.AreOffersJudged rows source.now)) }
    ensures texts { IsHost host.now → IfOk result spec.CanAllBeOffered }
    ensures reads { access.Reads AreFormed (access.fails result) (K.store keeper.old) (K.store keeper.new) }
{
    let subscriptions = list_subscriptions(keeper, alloc)?;
    let mut offers = List::new(alloc);
    push_offers(&mut offers, keeper, source, host, subscriptions.as_slice())?;
    Ok(offers)
}

fn push_offers<K: Keeper>(
    offers: &mut List<Offer>,
    keeper: &mut K,
    source: &SourceName,
    host: &Text,
    subscriptions: &[Listed],
) -> Result<(), StoreFault>
    requires ready { access.IsReady (K.store keeper.old) }
    requires texts { All IsXmlListed subscriptions.now }
    ensures offers { IfSome (K.store keeper.new).rows (λ rows. OnOk result (offers.new ≡ offers.old ++ filter_map (spec.offer_of rows source.now host.now) subscriptions.now)) }
    ensures judged { IfSome (K.store keeper.new).rows (λ rows. OnOk result (list_all (judged.is_offer_formed rows source.now) subscriptions.now ≡ true)) }
    ensures texts { OnOk result (IsHost host.now → spec.CanAllBeOffered offers.old → spec.CanAllBeOffered offers.new) }
    ensures reads { access.Reads AreFormed (access.fails result) (K.store keeper.old) (K.store keeper.new) }
{
    for listed in subscriptions {
        push_offer(offers, keeper, source, host, listed)?;
    }
    Ok(())
}

fn push_offer<K: Keeper>(
    offers: &mut List<Offer>,
    keeper: &mut K,
    source: &SourceName,
    host: &Text,
    listed: &Listed,
) -> Result<(), StoreFault>
    requires ready { access.IsReady (K.store keeper.old) }
    requires texts { IsXmlListed listed.now }
    ensures offers { IfSome (K.store keeper.new).rows (λ rows. OnOk result (offers.new ≡ offers.old ++ filter_map (spec.offer_of rows source.now host.now) (listed.now ∷ []))) }
    ensures judged { IfSome (K.store keeper.new).rows (λ rows. OnOk result (judged.is_offer_formed rows source.now listed.now ≡ true)) }
    ensures texts { OnOk result (IsHost host.now → spec.CanAllBeOffered offers.old → spec.CanAllBeOffered offers.new) }
    ensures reads { access.Reads AreFormed (access.fails result) (K.store keeper.old) (K.store keeper.new) }
{
    if !is_offered(listed) {
        return Ok(());
    }
    let offer = offer_made(keeper, source, host, &listed.subscription)?;
    offers.push(offer)?;
    Ok(())
}

fn is_offered(listed: &Listed) -> bool
    ensures { result ≡ spec.is_offered listed.now }
{
    listed.live && begins_at_sources(listed.subscription.kind)
}

fn begins_at_sources(kind: SubKind) -> bool
    ensures { result ≡ spec.begins_at_sources kind }
{
    match kind {
        SubKind::BySource => true,
        SubKind::ByCollector => false,
    }
}

fn offer_made<K: Keeper>(
    keeper: &mut K,
    source: &SourceName,
    host: &Text,
    subscription: &Subscription,
) -> Result<Offer, StoreFault>
    requires ready { access.IsReady (K.store keeper.old) }
    requires texts { AreXmlQueries subscription.now.query.items }
    ensures offer { IfSome (K.store keeper.new).rows (λ rows. IfOk result (λ offer. offer ≡ spec.offer_made rows source.now host.now subscription.now)) }
    ensures judged { IfSome (K.store keeper.new).rows (λ rows. OnOk result (AreAllFormed (bookmark_rows rows subscription.now.name source.now))) }
    ensures texts { IsHost host.now → IfOk result CanBeOffered }
    ensures reads { access.Reads AreFormed (access.fails result) (K.store keeper.old) (K.store keeper.new) }
{
    let from = bookmark_of(keeper, &subscription.name, source)?;
    Ok(offer_from(from, source, host, subscription)?)
}

/// The offer of a subscription that goes on from a bookmark.
fn offer_from(
    from: Bookmark,
    source: &SourceName,
    host: &Text,
    subscription: &Subscription,
) -> Result<Offer, AllocError>
    requires { AreXmlQueries subscription.now.query.items }
    ensures offer { IfOk result (λ offer. offer ≡ spec.offer_from from source.now host.now subscription.now) }
    ensures texts { IsHost host.now → IfOk result CanBeOffered }
{
    Ok(Offer {
        version: id_text(host.alloc(), u128::from(subscription.version))?,
        subscribe: subscribe_from(from, source, host, subscription, None)?,
    })
}

/// A wish of a subscription for the events of a source above a bookmark, at the address of both at the
/// host, and for how long if that is said.
pub(crate) fn subscribe_from(
    from: Bookmark,
    source: &SourceName,
    host: &Text,
    subscription: &Subscription,
    expires: Option<u64>,
) -> Result<Subscribe, AllocError>
    requires { AreXmlQueries subscription.now.query.items }
    ensures subscribe { IfOk result (λ subscribe. subscribe ≡ spec.subscribe_from from source.now host.now subscription.now expires) }
    ensures texts { IsHost host.now → IfOk result HasXmlTexts }
{
    let name = &subscription.name;
    let address = delivery_address(host, name, source)?;
    Ok(Subscribe {
        end_to: Some(address.clone()?),
        notify_to: address,
        identifier: Some(text_of(name)?),
        query: subscription.query.clone(host.alloc())?,
        max_items: subscription.max_items,
        max_bytes: subscription.max_bytes,
        heartbeat: subscription.heartbeat,
        expires,
        from,
    })
}

/// The text of a subscription's name.
#[tactic(auto, using(wef_eventing::proofs::NameTexts::allowed_name))]
fn text_of(name: &SubId) -> Result<Text, AllocError>
    ensures value { IfOk result (λ text. text ≡ name.now) }
    ensures allowed { IfOk result IsXmlText }
{
    let name = name.as_text();
    Text::from_str(name.alloc(), name.as_str())
}
