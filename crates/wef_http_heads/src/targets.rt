//! What a request is for.

ghost use Rattle.std.specs.List.{position};
ghost use Rattle.std.specs.Prelude.{◌≡◌};
ghost use Rattle.wef_http_heads.specs.Steps.{Judges, needed};
ghost use Rattle.wef_http_heads.specs.Targets.{delivery_at, delivery_of, is_question_mark, manager_at, decoded_name, path_of, root_at, serves, target_at, target_behind, target_of};
ghost use Rattle.wef_http_heads.specs.declared.ends.HttpEnd.TheVariants.{Path};
ghost use Rattle.wef_http_heads.specs.declared.targets.Side.TheVariants.{Source};

use crate::ends::HttpEnd;
use crate::fields::is_alike;
use std::alloc::Global;
use wef_base::words::{decode, split};
use wef_base::{Bytes, Text};

/// The path at which a collector offers subscriptions.
pub const MANAGER_PATH: &str = "/wsman/SubscriptionManager/WEC";

/// What a request is for: the path of its target.
#[derive(Debug, Drop, PartialEq, Eq)]
pub enum Target {
    /// `MANAGER_PATH`: the subscriptions for a source.
    Manager,
    /// `/wsman/subscriptions/SUB/SOURCE`: batches of a source for a subscription. Both are as the
    /// path has them, percent-decoded.
    Delivery { sub: Text, source: Text },
    /// `/wsman`: a source itself.
    Root,
}

/// The end that serves a request.
#[derive(Clone, Copy, Debug, PartialEq, Eq)]
pub enum Side {
    Collector,
    Source,
}

impl Side {
    fn serves(self, target: &Target) -> bool
        ensures { result ≡ serves self target.now }
    {
        match self {
            Side::Collector => !is_root(target),
            Side::Source => is_root(target),
        }
    }
}

fn is_root(target: &Target) -> bool
    ensures { result ≡ serves Source target.now }
{
    match target {
        Target::Root => true,
        Target::Manager | Target::Delivery { .. } => false,
    }
}

/// What a target is for, where the end serves that.
#[tactic(auto, unfolding(crate::specs::Targets::target_at))]
pub(crate) fn target_at(alloc: Global, side: Side, target: &[u8]) -> Result<Target, HttpEnd>
    ensures { Judges result (needed Path (target_at side target.now)) }
{
    let segments = split(alloc, path_of(target), b'/')?;
    let target = target_of(alloc, segments.as_slice())?;
    if !side.serves(&target) {
        return Err(HttpEnd::Path);
    }
    Ok(target)
}

/// What stands before a query.
#[tactic(auto, using(crate::proofs::Questions::before_found, crate::proofs::Questions::before_none))]
fn path_of(target: &[u8]) -> &[u8]
    ensures { result.now ≡ path_of target.now }
{
    match query_start(target) {
        Some(place) => &target[..place],
        None => target,
    }
}

fn query_start(target: &[u8]) -> Option<usize>
    ensures { result ≡ position is_question_mark target.now }
{
    target.iter().position(|&byte| byte == b'?')
}

fn target_of(alloc: Global, parts: &[Bytes]) -> Result<Target, HttpEnd>
    ensures { Judges result (needed Path (target_of parts.now)) }
{
    let Some((start, segments)) = parts.split_first() else {
        return Err(HttpEnd::Path);
    };
    if !start.is_empty() {
        return Err(HttpEnd::Path);
    }
    target_behind(alloc, segments)
}

fn target_behind(alloc: Global, segments: &[Bytes]) -> Result<Target, HttpEnd>
    ensures { Judges result (needed Path (target_behind segments.now)) }
{
    match segments {
        [root] => root_at(root.as_slice()),
        [root, manager, name] => manager_at(root.as_slice(), manager.as_slice(), name.as_slice()),
        [root, subscriptions, sub, source] => delivery_at(
            alloc,
            root.as_slice(),
            subscriptions.as_slice(),
            sub.as_slice(),
            source.as_slice(),
        ),
        _ => Err(HttpEnd::Path),
    }
}

fn root_at(root: &[u8]) -> Result<Target, HttpEnd>
    ensures { Judges result (needed Path (root_at root.now)) }
{
    if !is_alike(root, b"wsman") {
        return Err(HttpEnd::Path);
    }
    Ok(Target::Root)
}

fn manager_at(root: &[u8], manager: &[u8], name: &[u8]) -> Result<Target, HttpEnd>
    ensures { Judges result (needed Path (manager_at root.now manager.now name.now)) }
{
    if !(is_alike(root, b"wsman")
        && is_alike(manager, b"SubscriptionManager")
        && is_alike(name, b"WEC"))
    {
        return Err(HttpEnd::Path);
    }
    Ok(Target::Manager)
}

fn delivery_at(
    alloc: Global,
    root: &[u8],
    subscriptions: &[u8],
    sub: &[u8],
    source: &[u8],
) -> Result<Target, HttpEnd>
    ensures { Judges result (needed Path (delivery_at root.now subscriptions.now sub.now source.now)) }
{
    if !(is_alike(root, b"wsman") && is_alike(subscriptions, b"subscriptions")) {
        return Err(HttpEnd::Path);
    }
    delivery_of(alloc, sub, source)
}

fn delivery_of(alloc: Global, sub: &[u8], source: &[u8]) -> Result<Target, HttpEnd>
    ensures { Judges result (needed Path (delivery_of sub.now source.now)) }
{
    let sub = decoded_name(alloc, sub)?;
    let source = decoded_name(alloc, source)?;
    Ok(Target::Delivery { sub, source })
}

/// The name that a segment says.
fn decoded_name(alloc: Global, segment: &[u8]) -> Result<Text, HttpEnd>
    ensures { Judges result (needed Path (decoded_name segment.now)) }
{
    let Some(name) = decode(alloc, segment)? else {
        return Err(HttpEnd::Path);
    };
    if name.is_empty() {
        return Err(HttpEnd::Path);
    }
    Ok(name)
}
