//! What the collector's calls change, or why they are refused.

ghost use Rattle.std.specs.Prelude.{◌≡◌, ◌≤◌, true, false, [], ◌∷◌, is_some, Some, Ok, IsErr, IfErr, IfOk, IfSome, OnOk};
ghost use Rattle.wef_batch.specs.Numbers.{AreNumbered};
ghost use Rattle.wef_collector.specs.Boots.{boot_of, memory_begun};
ghost use Rattle.wef_collector.specs.Calls as calls;
ghost use Rattle.wef_collector.specs.Judged as judged;
ghost use Rattle.wef_collector.specs.Taken as taken;
ghost use Rattle.wef_collector_rows.specs.Answers as answers;
ghost use Rattle.wef_collector_rows.specs.Faults.{collector_store};
ghost use Rattle.wef_collector_rows.specs.Forms.{AreFormed, is_formed};
ghost use Rattle.wef_collector_rows.specs.Judged.{IsFormedAt, JudgesName};
ghost use Rattle.wef_collector_rows.specs.Keys as keys;
ghost use Rattle.wef_collector_rows.specs.Standing as standings;
ghost use Rattle.wef_collector_rows.specs.declared.standings.Standing.TheVariants.{Live};
ghost use Rattle.wef_documents.specs.Kept.{read_kept};
ghost use Rattle.wef_documents.specs.Written.{document_text};
ghost use Rattle.wef_keeper.specs.Access as access;
ghost use Rattle.wef_keeper.specs.Calls.{Tells, TellsFault, fails};
ghost use Rattle.wef_keeper.specs.Rows as the_rows;

use crate::changes::{batch_changes, heard_changes, push_put};
use crate::memories::Memory;
use std::alloc::{AllocError, Global};
use wef_base::moments::Moment;
use wef_base::numbers::MAX;
use wef_base::{SourceName, SubId, Text};
use wef_batch::{Batch, judge};
use wef_collector_rows::CollectorForm;
use wef_collector_rows::faults::CollectorFault;
use wef_collector_rows::keys::{boot_key, subscription_key, subscriptions_start};
use wef_collector_rows::numbers::number_at;
use wef_collector_rows::standings::{live_in, subscription_cell};
use wef_documents::{read_kept, write_document};
use wef_eventing::Subscription;
use wef_keeper::forms::formed_page;
use wef_keeper::{Cell, Changes, Depth, Keeper, Key, StoreFault};
use wef_query::channels;

/// The most subscriptions that are kept, ended ones counted.
pub const MOST_SUBSCRIPTIONS: u32 = 256;

/// A subscription more, where its name isn't there and there is room.
pub fn add_changes<K: Keeper>(
    keeper: &mut K,
    alloc: Global,
    subscription: &Subscription,
) -> Result<Changes<CollectorForm>, CollectorFault>
    requires kept { read_kept subscription.now.name (document_text subscription.now) ≡ Some subscription.now }
    requires ready { access.IsReady (K.store keeper.old) }
    ensures effect { IfSome (K.store keeper.new).rows (λ rows. Tells collector_store result (calls.add_effect rows subscription.now)) }
    ensures judged { IfSome (K.store keeper.new).rows (λ rows. judged.JudgesAdd result rows subscription.now.name) }
    ensures listed { IfErr result calls.OfAdd }
    ensures reads { access.Reads AreFormed (fails collector_store result) (K.store keeper.old) (K.store keeper.new) }
{
    if is_there(keeper, &subscription.name)? {
        return Err(CollectorFault::Exists);
    }
    if is_full(keeper, alloc)? {
        return Err(CollectorFault::TooMany);
    }
    Ok(put_live(alloc, subscription)?)
}

/// Whether a name is that of a subscription, ended or not.
fn is_there<K: Keeper>(keeper: &mut K, sub: &SubId) -> Result<bool, StoreFault>
    requires { access.IsReady (K.store keeper.old) }
    ensures there { IfSome (K.store keeper.new).rows (λ rows. IfOk result (λ there. there ≡ answers.is_there rows sub.now)) }
    ensures judged { IfSome (K.store keeper.new).rows (λ rows. OnOk result (IsFormedAt (keys.subscription_key sub.now) rows)) }
    ensures reads { access.Reads AreFormed (access.fails result) (K.store keeper.old) (K.store keeper.new) }
{
    Ok(subscription_cell(keeper, sub)?.is_some())
}

/// The change that puts a live subscription.
#[tactic(auto, using(wef_documents::proofs::KeptBack::kept_xml))]
fn put_live(
    alloc: Global,
    subscription: &Subscription,
) -> Result<Changes<CollectorForm>, AllocError>
    requires { read_kept subscription.now.name (document_text subscription.now) ≡ Some subscription.now }
    ensures { IfOk result (λ changes. changes ≡ taken.put (keys.subscription_key subscription.now.name) 0 (document_text subscription.now) ∷ []) }
{
    let body = write_document(alloc, subscription)?;
    put_subscription(alloc, &subscription.name, 0, body)
}

/// The change that puts the row of a subscription.
fn put_subscription(
    alloc: Global,
    sub: &SubId,
    value: u64,
    body: Text,
) -> Result<Changes<CollectorForm>, AllocError>
    requires value { value ≤ 1 }
    requires kept { is_some (read_kept sub.now body) ≡ true }
    ensures { IfOk result (λ changes. changes ≡ taken.put (keys.subscription_key sub.now) value body ∷ []) }
{
    // The text is asked for since it says that the name reads back.
    let _text = sub.as_text();
    let key = subscription_key(sub)?;
    one_put(alloc, key, value, body)
}

fn is_full<K: Keeper>(keeper: &mut K, alloc: Global) -> Result<bool, StoreFault>
    requires { access.IsReady (K.store keeper.old) }
    ensures full { IfSome (K.store keeper.new).rows (λ rows. IfOk result (λ full. full ≡ standings.is_full rows)) }
    ensures judged { IfSome (K.store keeper.new).rows (λ rows. OnOk result (judged.AreCountedFormed rows)) }
    ensures reads { access.Reads AreFormed (access.fails result) (K.store keeper.old) (K.store keeper.new) }
{
    let start = subscriptions_start(alloc);
    let page = formed_page::<CollectorForm, K>(keeper, &start, Depth::Kind, MOST_SUBSCRIPTIONS)?;
    Ok(page.len() == MOST_SUBSCRIPTIONS as usize)
}

/// A live subscription ends.
pub fn end_changes<K: Keeper>(
    keeper: &mut K,
    alloc: Global,
    sub: &SubId,
) -> Result<Changes<CollectorForm>, CollectorFault>
    requires { access.IsReady (K.store keeper.old) }
    ensures effect { IfSome (K.store keeper.new).rows (λ rows. Tells collector_store result (calls.end_effect rows sub.now)) }
    ensures judged { IfSome (K.store keeper.new).rows (λ rows. JudgesName result rows sub.now) }
    ensures listed { IfErr result calls.OfEnd }
    ensures reads { access.Reads AreFormed (fails collector_store result) (K.store keeper.old) (K.store keeper.new) }
{
    let cell = subscription_cell(keeper, sub)?;
    let body = live_document(sub, cell)?;
    Ok(put_subscription(alloc, sub, 1, body)?)
}

/// The document of a live subscription, by what stands at its key.
fn live_document(sub: &SubId, cell: Option<Cell>) -> Result<Text, CollectorFault>
    ensures document { IfOk result (λ document. document ≡ standings.kept_body cell) }
    ensures kept { IfOk result (λ document. is_some (read_kept sub.now document) ≡ true) }
    ensures live { OnOk result ((rows : the_rows.Rows) → calls.end_by (standings.standing_of sub.now cell) rows sub.now ≡ Ok (calls.ended rows sub.now)) }
    ensures refusal { IfErr result (λ fault. (rows : the_rows.Rows) → TellsFault (collector_store fault) fault (calls.end_by (standings.standing_of sub.now cell) rows sub.now)) }
    ensures listed { IfErr result calls.OfEnd }
    ensures calm { fails collector_store result ≡ false }
{
    let Some(cell) = cell else {
        return Err(CollectorFault::NoSubscription);
    };
    if read_kept(sub, &cell.body)?.is_none() {
        return Err(CollectorFault::NoSubscription);
    }
    if cell.value != 0 {
        return Err(CollectorFault::Ended);
    }
    Ok(cell.body)
}

/// A batch that is well-formed for a live subscription's channels is taken.
pub fn take_changes<K: Keeper>(
    keeper: &mut K,
    alloc: Global,
    sub: &SubId,
    source: &SourceName,
    batch: &Batch,
    now: Moment,
) -> Result<Changes<CollectorForm>, CollectorFault>
    requires numbered { AreNumbered batch.now.items }
    requires ready { access.IsReady (K.store keeper.old) }
    ensures effect { IfSome (K.store keeper.new).rows (λ rows. Tells collector_store result (calls.take_effect rows sub.now source.now batch.now now)) }
    ensures judged { IfSome (K.store keeper.new).rows (λ rows. judged.JudgesTake result rows sub.now source.now batch.now) }
    ensures listed { IfErr result calls.OfTake }
    ensures reads { access.Reads AreFormed (fails collector_store result) (K.store keeper.old) (K.store keeper.new) }
{
    let subscription = live_in(keeper, sub)?;
    live_changes(keeper, alloc, sub, source, &subscription, batch, now)
}

/// Refuses a batch that couldn't be read: of a live subscription, it isn't well-formed.
pub fn unread_changes<K: Keeper>(
    keeper: &mut K,
    sub: &SubId,
) -> Result<Changes<CollectorForm>, CollectorFault>
    requires { access.IsReady (K.store keeper.old) }
    ensures refused { IsErr result }
    ensures effect { IfSome (K.store keeper.new).rows (λ rows. Tells collector_store result (calls.unread_effect rows sub.now)) }
    ensures judged { IfSome (K.store keeper.new).rows (λ rows. JudgesName result rows sub.now) }
    ensures listed { IfErr result calls.OfTake }
    ensures reads { access.Reads AreFormed (fails collector_store result) (K.store keeper.old) (K.store keeper.new) }
{
    live_in(keeper, sub)?;
    Err(CollectorFault::NotWellFormed)
}

/// What a batch changes that is well-formed for the channels of a live subscription.
fn live_changes<K: Keeper>(
    keeper: &mut K,
    alloc: Global,
    sub: &SubId,
    source: &SourceName,
    subscription: &Subscription,
    batch: &Batch,
    now: Moment,
) -> Result<Changes<CollectorForm>, CollectorFault>
    requires numbered { AreNumbered batch.now.items }
    requires ready { access.IsReady (K.store keeper.old) }
    ensures effect { IfSome (K.store keeper.new).rows (λ rows. Tells collector_store result (calls.take_by (Live subscription.now) rows sub.now source.now batch.now now)) }
    ensures judged { IfSome (K.store keeper.new).rows (λ rows. OnOk result (judged.AreReachedFormed rows sub.now source.now batch.now (answers.channels_read subscription.now) × IsFormedAt (keys.heard_key sub.now source.now) rows)) }
    ensures listed { IfErr result calls.OfTake }
    ensures reads { access.Reads AreFormed (fails collector_store result) (K.store keeper.old) (K.store keeper.new) }
{
    let channels = channels(alloc, &subscription.query)?;
    if !judge(batch, channels.as_slice()) {
        return Err(CollectorFault::NotWellFormed);
    }
    Ok(batch_changes(keeper, sub, source, channels.as_slice(), batch, now)?)
}

/// A source of a live subscription is heard at a moment.
pub fn hear_changes<K: Keeper>(
    keeper: &mut K,
    sub: &SubId,
    source: &SourceName,
    now: Moment,
) -> Result<Changes<CollectorForm>, CollectorFault>
    requires { access.IsReady (K.store keeper.old) }
    ensures effect { IfSome (K.store keeper.new).rows (λ rows. Tells collector_store result (calls.hear_effect rows sub.now source.now now)) }
    ensures judged { IfSome (K.store keeper.new).rows (λ rows. judged.JudgesHear result rows sub.now source.now) }
    ensures listed { IfErr result calls.OfEnd }
    ensures reads { access.Reads AreFormed (fails collector_store result) (K.store keeper.old) (K.store keeper.new) }
{
    let _subscription = live_in(keeper, sub)?;
    Ok(heard_changes(keeper, sub, source, now)?)
}

/// What a start commits, and what the collector remembers then.
#[derive(Drop)]
pub struct Starting {
    pub changes: Changes<CollectorForm>,
    pub memory: Memory,
}

/// The boot number rises by one, below the greatest.
pub fn boot_changes<K: Keeper>(keeper: &mut K, alloc: Global) -> Result<Starting, CollectorFault>
    requires { access.IsReady (K.store keeper.old) }
    ensures effect { IfSome (K.store keeper.new).rows (λ rows. IfOk result (λ starting. calls.boot_effect rows ≡ Ok starting.changes)) }
    ensures memory { IfSome (K.store keeper.new).rows (λ rows. IfOk result (λ starting. starting.memory ≡ memory_begun rows)) }
    ensures refusal { IfSome (K.store keeper.new).rows (λ rows. IfErr result (λ fault. TellsFault (collector_store fault) fault (calls.boot_effect rows))) }
    ensures judged { IfSome (K.store keeper.new).rows (λ rows. judged.JudgesStart result rows) }
    ensures listed { IfErr result calls.OfStart }
    ensures reads { access.Reads AreFormed (fails collector_store result) (K.store keeper.old) (K.store keeper.new) }
{
    let boot = boot_in(keeper, alloc)?;
    if boot >= MAX {
        return Err(CollectorFault::Full);
    }
    let raised = boot + 1;
    Ok(Starting {
        changes: put_boot(alloc, raised)?,
        memory: Memory::of_boot(alloc, raised),
    })
}

/// The boot number, 0 where none is kept.
fn boot_in<K: Keeper>(keeper: &mut K, alloc: Global) -> Result<u64, StoreFault>
    requires { access.IsReady (K.store keeper.old) }
    ensures boot { IfSome (K.store keeper.new).rows (λ rows. IfOk result (λ boot. boot ≡ boot_of rows)) }
    ensures judged { IfSome (K.store keeper.new).rows (λ rows. OnOk result (IsFormedAt keys.boot_key rows)) }
    ensures reads { access.Reads AreFormed (access.fails result) (K.store keeper.old) (K.store keeper.new) }
{
    let key = boot_key(alloc);
    number_at(keeper, &key)
}

/// The change that puts the boot number.
fn put_boot(alloc: Global, boot: u64) -> Result<Changes<CollectorForm>, AllocError>
    requires { boot ≤ MAX }
    ensures { IfOk result (λ changes. changes ≡ taken.put keys.boot_key boot [] ∷ []) }
{
    one_put(alloc, boot_key(alloc), boot, Text::new(alloc))
}

/// The list of one change, which puts a row of its form.
fn one_put(
    alloc: Global,
    key: Key,
    value: u64,
    body: Text,
) -> Result<Changes<CollectorForm>, AllocError>
    requires number { key.number ≤ MAX }
    requires value { value ≤ MAX }
    requires form { is_formed (record { key = key; value = value; body = body }) ≡ true }
    ensures { IfOk result (λ changes. changes ≡ taken.put key value body ∷ []) }
{
    let mut changes = Changes::new(alloc);
    push_put(&mut changes, key, value, body)?;
    Ok(changes)
}
