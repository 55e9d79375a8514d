//! The next request of the collector to a source of a subscription that it begins.

ghost use Rattle.std.specs.Prelude.{◌≡◌, Some, IfOk, IfSome, OnErr, OnOk};
ghost use Rattle.wef_bodies.specs.Laws.{CanBeWritten};
ghost use Rattle.wef_collector.specs.Asking as spec;
ghost use Rattle.wef_collector.specs.Judged as judged;
ghost use Rattle.wef_collector.specs.Memories.{with_asked};
ghost use Rattle.wef_collector.specs.Offers.{subscribe_from};
ghost use Rattle.wef_collector_leases.specs.Leases.{IsXmlWish};
ghost use Rattle.wef_collector_leases.specs.Next.{IsXmlDue};
ghost use Rattle.wef_collector_rows.specs.Bookmarks.{bookmark_of, bookmark_rows};
ghost use Rattle.wef_collector_rows.specs.Forms.{AreFormed};
ghost use Rattle.wef_collector_rows.specs.Judged.{AreAllFormed};
ghost use Rattle.wef_eventing.specs.Addresses.{IsHost};
ghost use Rattle.wef_eventing.specs.Sending.{AreXmlQueries, HasXmlTexts};
ghost use Rattle.wef_ids.specs.IdTexts.{id_of_value};
ghost use Rattle.wef_ids.specs.Ids.{next_id};
ghost use Rattle.wef_keeper.specs.Access as access;
ghost use Rattle.wef_xml.specs.Good.{IsXmlText};

use crate::memories::Memory;
use crate::offering::subscribe_from;
use std::alloc::{AllocError, Global};
use wef_base::moments::Moment;
use wef_base::{SourceName, SubId, Text};
use wef_bodies::Body;
use wef_collector_leases::next::next_due;
use wef_collector_leases::{Due, Waiting, Wants};
use wef_collector_rows::bookmarks::bookmark_of;
use wef_eventing::{SourceAt, Subscribe, Subscription};
use wef_ids::MessageId;
use wef_keeper::{Keeper, StoreFault};

/// What the collector asks of a source (WS-Eventing, 3.1 to 3.4): that it begins to send, in a Subscribe;
/// that it goes on, in a Renew; or that it ends, in an Unsubscribe.
#[derive(Debug, Drop)]
pub struct Request {
    pub id: MessageId,
    /// The subscription that it is for.
    pub sub: SubId,
    /// The source that it goes to.
    pub source: SourceAt,
    /// What the source named the session by, where the request is about one.
    pub identifier: Option<Text>,
    pub body: Body,
}

/// The next request, whose answer the collector then waits for. None where nothing is due.
pub(crate) fn ask_next<K: Keeper>(
    keeper: &mut K,
    alloc: Global,
    memory: &mut Memory,
    host: &Text,
    now: Moment,
) -> Result<Option<Request>, StoreFault>
    requires { access.IsReady (K.store keeper.old) }
    ensures request { IfSome (K.store keeper.new).rows (λ rows. IfOk result (λ asked. asked ≡ spec.next_request rows memory.old.waiting memory.old.ids host.now now)) }
    ensures judged { IfSome (K.store keeper.new).rows (λ rows. OnOk result (judged.JudgesRequest rows memory.old.waiting now)) }
    ensures texts { IsHost host.now → IfOk result (λ asked. IfSome asked spec.CanBeRequested) }
    ensures waits { IfOk result (λ asked. memory.new ≡ with_asked asked memory.old) }
    ensures err { OnErr result (memory.new ≡ memory.old) }
    ensures reads { access.Reads AreFormed (access.fails result) (K.store keeper.old) (K.store keeper.new) }
{
    let Some(due) = next_due(keeper, alloc, &memory.waiting, now)? else {
        return Ok(None);
    };
    let id = next_id(alloc, memory)?;
    let request = request_for(keeper, host, id, due)?;
    let waiting = waiting_of(&request)?;
    memory.wait_for(waiting)?;
    Ok(Some(request))
}

/// The id that is drawn next.
#[tactic(auto, using(wef_ids::proofs::PlainIds::id_text_good))]
fn next_id(alloc: Global, memory: &Memory) -> Result<MessageId, AllocError>
    ensures id { IfOk result (λ id. id ≡ id_of_value (next_id memory.now.ids)) }
    ensures text { IfOk result (λ id. IsXmlText id.text) }
{
    let mut ids = memory.ids;
    MessageId::of_value(alloc, ids.draw())
}

/// The request for what is due, under an id.
fn request_for<K: Keeper>(
    keeper: &mut K,
    host: &Text,
    id: MessageId,
    due: Due,
) -> Result<Request, StoreFault>
    requires due { IsXmlDue due }
    requires id { IsXmlText id.text }
    requires ready { access.IsReady (K.store keeper.old) }
    ensures request { IfSome (K.store keeper.new).rows (λ rows. IfOk result (λ request. request ≡ spec.request_for rows host.now id due)) }
    ensures judged { IfSome (K.store keeper.new).rows (λ rows. OnOk result (judged.IsWishJudged rows due.subscription.name due.source.name due.wants)) }
    ensures texts { IsHost host.now → IfOk result spec.CanBeRequested }
    ensures identifier { IfOk result (λ request. IfSome request.identifier IsXmlText) }
    ensures id { IfOk result (λ request. request.id ≡ id) }
    ensures reads { access.Reads AreFormed (access.fails result) (K.store keeper.old) (K.store keeper.new) }
{
    let Due {
        subscription,
        source,
        wants,
    } = due;
    let body = body_for(keeper, host, &subscription, &source.name, &wants)?;
    Ok(Request {
        id,
        sub: subscription.name.clone()?,
        source,
        identifier: identifier_of(&wants)?,
        body,
    })
}

/// A wish as the body of a message.
fn body_for<K: Keeper>(
    keeper: &mut K,
    host: &Text,
    about: &Subscription,
    source: &SourceName,
    wants: &Wants,
) -> Result<Body, StoreFault>
    requires texts { AreXmlQueries about.now.query.items }
    requires ready { access.IsReady (K.store keeper.old) }
    ensures body { IfSome (K.store keeper.new).rows (λ rows. IfOk result (λ body. body ≡ spec.body_for rows host.now about.now source.now wants.now)) }
    ensures judged { IfSome (K.store keeper.new).rows (λ rows. OnOk result (judged.IsWishJudged rows about.now.name source.now wants.now)) }
    ensures texts { IsHost host.now → IfOk result CanBeWritten }
    ensures reads { access.Reads AreFormed (access.fails result) (K.store keeper.old) (K.store keeper.new) }
{
    match wants {
        Wants::Subscribes => Ok(Body::Subscribe(subscribe_kept(keeper, host, about, source)?)),
        Wants::Renews { .. } => Ok(Body::Renew {
            expires: about.expires,
        }),
        Wants::Unsubscribes { .. } => Ok(Body::Unsubscribe),
    }
}

/// A wish for the events above the bookmark that is kept.
fn subscribe_kept<K: Keeper>(
    keeper: &mut K,
    host: &Text,
    about: &Subscription,
    source: &SourceName,
) -> Result<Subscribe, StoreFault>
    requires texts { AreXmlQueries about.now.query.items }
    requires ready { access.IsReady (K.store keeper.old) }
    ensures subscribe { IfSome (K.store keeper.new).rows (λ rows. IfOk result (λ subscribe. subscribe ≡ subscribe_from (bookmark_of rows about.now.name source.now) source.now host.now about.now (Some about.now.expires))) }
    ensures judged { IfSome (K.store keeper.new).rows (λ rows. OnOk result (AreAllFormed (bookmark_rows rows about.now.name source.now))) }
    ensures texts { IsHost host.now → IfOk result HasXmlTexts }
    ensures reads { access.Reads AreFormed (access.fails result) (K.store keeper.old) (K.store keeper.new) }
{
    let from = bookmark_of(keeper, &about.name, source)?;
    let expires = Some(about.expires);
    Ok(subscribe_from(from, source, host, about, expires)?)
}

/// What names the session that a wish is about.
fn identifier_of(wants: &Wants) -> Result<Option<Text>, AllocError>
    requires { IsXmlWish wants.now }
    ensures identifier { IfOk result (λ identifier. identifier ≡ spec.identifier_of wants.now) }
    ensures text { IfOk result (λ identifier. IfSome identifier IsXmlText) }
{
    match wants {
        Wants::Subscribes => Ok(None),
        Wants::Renews { identifier } => Ok(Some(identifier.clone()?)),
        Wants::Unsubscribes { identifier } => Ok(Some(identifier.clone()?)),
    }
}

/// A request as it waits for its answer.
fn waiting_of(request: &Request) -> Result<Waiting, AllocError>
    requires { IfSome request.now.identifier IsXmlText }
    ensures waiting { IfOk result (λ waiting. waiting ≡ spec.waiting_of request.now) }
    ensures wish { IfOk result (λ waiting. IsXmlWish waiting.wants) }
{
    Ok(Waiting {
        sub: request.sub.clone()?,
        source: request.source.name.clone()?,
        id: request.id.value.unwrap_or(0),
        wants: wants_of(request)?,
    })
}

/// The wish in a request.
fn wants_of(request: &Request) -> Result<Wants, AllocError>
    requires { IfSome request.now.identifier IsXmlText }
    ensures wants { IfOk result (λ wants. wants ≡ spec.wants_by request.now.identifier request.now.body) }
    ensures wish { IfOk result IsXmlWish }
{
    let Some(identifier) = &request.identifier else {
        return Ok(Wants::Subscribes);
    };
    let identifier = identifier.clone()?;
    match &request.body {
        Body::Unsubscribe => Ok(Wants::Unsubscribes { identifier }),
        _ => Ok(Wants::Renews { identifier }),
    }
}
