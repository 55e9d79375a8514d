//! A source's wish for its subscriptions, sent to a collector.

ghost use Rattle.std.specs.Prelude.{◌≡◌, ◌≤◌, option_copied, IfOk, OnErr};
ghost use Rattle.wef_eventing.specs.Addresses.{IsHost};
ghost use Rattle.wef_forwarding.specs.Asking.{EndsAsk, Enumerates, HearsEnvelope, adopted_in, enumerate_request, manager_path};
ghost use Rattle.wef_xml.specs.Good.{IsXmlText};

use crate::exchanges::{FrontFault, Request, exchange};
use std::alloc::{AllocError, Global};
use wef_base::moments::Moment;
use wef_base::{Bytes, SourceName, Text};
use wef_connections::Link;
use wef_front::{Hears, source_hears, write_enumerate};
use wef_http_heads::MANAGER_PATH;
use wef_ids::MessageId;
use wef_keeper::Keeper;
use wef_source::SourceEnd;

/// Asks the collector at a host for the source's subscriptions, in a connection of its own, and hears at
/// a moment what comes back. Answers how many sessions there are, where offers were adopted. None
/// where what came back is a fault, offers for another ask, or no reply that a source knows, in a
/// response with another status than 200, 400 and 500, or no response. The store isn't used.
#[tactic(auto, using(wef_ids::proofs::PlainIds::id_text_good, crate::proofs::Requested::asked, crate::proofs::Requested::not_asked))]
pub fn ask_once<L: Link, K: Keeper>(
    alloc: Global,
    link: &mut L,
    source: &mut SourceEnd<K>,
    host: &Text,
    now: Moment,
) -> Result<Option<u64>, FrontFault>
    requires { IsHost host.now }
    ensures asked { Enumerates host.now source.old.name source.old.memory source.new.memory now (L.told link.old) (L.told link.new) result }
    ensures later { (L.told link.old).faults ≤ (L.told link.new).faults }
    ensures keeper { source.new.keeper ≡ source.old.keeper }
    ensures name { source.new.name ≡ source.old.name }
{
    match source.ask() {
        Ok(id) => ask_under(alloc, link, source, host, &id, now),
        Err(refusal) => Err(FrontFault::from(refusal)),
    }
}

/// Asks under an id that was drawn for it.
#[tactic(auto, using(crate::proofs::Requested::not_sent, crate::proofs::Requested::heard, crate::proofs::Requested::not_heard, crate::proofs::Requested::not_made))]
fn ask_under<L: Link, K: Keeper>(
    alloc: Global,
    link: &mut L,
    source: &mut SourceEnd<K>,
    host: &Text,
    id: &MessageId,
    now: Moment,
) -> Result<Option<u64>, FrontFault>
    requires host { IsHost host.now }
    requires id { IsXmlText id.now.text }
    ensures ends { EndsAsk (enumerate_request host.now source.old.name id.now) now source.old.memory source.new.memory (L.told link.old) (L.told link.new) result }
    ensures later { (L.told link.old).faults ≤ (L.told link.new).faults }
    ensures keeper { source.new.keeper ≡ source.old.keeper }
    ensures name { source.new.name ≡ source.old.name }
{
    let Ok(request) = enumerate_request(alloc, host, source.name(), id) else {
        return Err(FrontFault::NoMemory);
    };
    match exchange(alloc, link, &request) {
        Ok(envelope) => match hear(alloc, source, envelope.as_ref(), now) {
            Ok(count) => Ok(count),
            Err(_) => Err(FrontFault::NoMemory),
        },
        Err(fault) => Err(fault),
    }
}

/// The request that an ask makes.
fn enumerate_request(
    alloc: Global,
    host: &Text,
    source: &SourceName,
    id: &MessageId,
) -> Result<Request, AllocError>
    requires host { IsHost host.now }
    requires id { IsXmlText id.now.text }
    ensures { IfOk result (λ request. request ≡ enumerate_request host.now source.now id.now) }
{
    let path = manager_path(alloc)?;
    Ok(Request {
        host: host.clone()?,
        path,
        body: write_enumerate(alloc, host, source, id)?,
    })
}

#[tactic(auto, unfolding(crate::specs::Asking::manager_path))]
fn manager_path(alloc: Global) -> Result<Text, AllocError>
    ensures { IfOk result (λ path. path ≡ manager_path) }
{
    Text::from_str(alloc, MANAGER_PATH)
}

/// Hears the envelope that came back, if one did.
fn hear<K: Keeper>(
    alloc: Global,
    source: &mut SourceEnd<K>,
    envelope: Option<&Bytes>,
    now: Moment,
) -> Result<Option<u64>, AllocError>
    ensures heard { IfOk result (HearsEnvelope (option_copied envelope.entry) now source.old.memory source.new.memory) }
    ensures wants_memory { OnErr result (source.new.memory ≡ source.old.memory) }
    ensures keeper { source.new.keeper ≡ source.old.keeper }
    ensures name { source.new.name ≡ source.old.name }
{
    let Some(envelope) = envelope else {
        return Ok(None);
    };
    let hears = source_hears(alloc, source, envelope, now)?;
    Ok(adopted_in(hears))
}

/// How many sessions there are, where offers were adopted.
fn adopted_in(hears: Hears) -> Option<u64>
    ensures { result ≡ adopted_in hears }
{
    match hears {
        Hears::Adopted(count) => Some(count),
        _ => None,
    }
}
