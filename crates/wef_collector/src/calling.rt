//! The calls that change what is kept: each opens the store, reads, and makes at most one commit.

ghost use Rattle.std.specs.Prelude.{option_copied, IfErr, IfSome, OnOk};
ghost use Rattle.wef_collector.specs.Boots.{memory_begun};
ghost use Rattle.wef_collector.specs.Calls as calls;
ghost use Rattle.wef_collector.specs.Judged as judged;
ghost use Rattle.wef_collector.specs.Calling as spec;
ghost use Rattle.wef_collector.specs.Responses.{CanBeTaken, answered_of, waiting_effect};
ghost use Rattle.wef_collector_leases.specs.Leases.{IsXmlWish};
ghost use Rattle.wef_collector_rows.specs.Faults.{collector_store};
ghost use Rattle.wef_collector_rows.specs.Forms.{AreFormed};
ghost use Rattle.wef_keeper.specs.Access as access;
ghost use Rattle.wef_keeper.specs.Calls.{DoesWith, IsCall, Tells, fails};

use crate::effects::{
    add_changes, boot_changes, end_changes, hear_changes, take_changes, unread_changes,
};
use crate::leasing::{response_changes, source_ended_changes, unread_end_changes};
use crate::memories::Memory;
use crate::responses::{Answered, Response};
use std::alloc::Global;
use wef_base::moments::Moment;
use wef_base::{SourceName, SubId, Text};
use wef_batch::Batch;
use wef_collector_leases::Waiting;
use wef_collector_leases::changes::release_changes;
use wef_collector_rows::CollectorForm;
use wef_collector_rows::faults::CollectorFault;
use wef_eventing::Subscription;
use wef_keeper::access::{commit, open};
use wef_keeper::{Changes, Keeper};

/// What the collector is asked to change.
#[derive(Clone, Copy)]
pub enum Call<'a> {
    /// A subscription is added.
    Add(&'a Subscription),
    /// A subscription ends.
    End(&'a SubId),
    /// A batch of a source for a subscription is taken at a moment.
    Take {
        sub: &'a SubId,
        source: &'a SourceName,
        batch: &'a Batch,
        now: Moment,
    },
    /// A batch for a subscription came that couldn't be read.
    TakeUnread(&'a SubId),
    /// A source of a subscription is heard at a moment, which has nothing to send.
    Hear {
        sub: &'a SubId,
        source: &'a SourceName,
        now: Moment,
    },
    /// A source answers the request that waits for that, at a moment.
    Respond {
        waiting: Option<&'a Waiting>,
        response: &'a Response,
        now: Moment,
    },
    /// All leases end.
    Release,
    /// A source has ended the session that it names so.
    SourceEnded {
        sub: &'a SubId,
        source: &'a SourceName,
        identifier: &'a Text,
    },
    /// The end of a session for a subscription came that couldn't be read.
    EndUnread(&'a SubId),
}

/// Does what is asked, in one commit.
pub fn answer<K: Keeper>(keeper: &mut K, alloc: Global, call: &Call) -> Result<(), CollectorFault>
    requires { spec.IsAllowed call.now }
    ensures call { IsCall collector_store AreFormed (spec.effect_of call.now) (λ _. tt) result (K.store keeper.old) (K.store keeper.new) }
    ensures judged { DoesWith collector_store AreFormed (spec.effect_of call.now) (λ _. tt) (λ answer found after. spec.Judges call.now answer found) result (K.store keeper.old) (K.store keeper.new) }
    ensures stands { IfSome (K.store keeper.new).rows (λ rows. OnOk result (spec.Stands call.now rows)) }
    ensures done { OnOk result (spec.MayBeDone call.now) }
    ensures listed { IfErr result (spec.IsRefusal call.now) }
{
    open(keeper)?;
    let changes = changes_of(keeper, alloc, call)?;
    commit(keeper, &changes)?;
    Ok(())
}

/// Takes what a source answers to the request that waits for it.
pub fn respond<K: Keeper>(
    keeper: &mut K,
    alloc: Global,
    waiting: Option<&Waiting>,
    response: &Response,
    now: Moment,
) -> Result<Answered, CollectorFault>
    requires wish { IfSome (option_copied waiting) (λ w. IsXmlWish w.wants) }
    requires taken { CanBeTaken response.now }
    ensures call { IsCall collector_store AreFormed (λ rows. waiting_effect (option_copied waiting.entry) response.now now rows) (λ _. answered_of response.now) result (K.store keeper.old) (K.store keeper.new) }
    ensures judged { DoesWith collector_store AreFormed (λ rows. waiting_effect (option_copied waiting.entry) response.now now rows) (λ _. answered_of response.now)
        (λ answer found after. judged.JudgesResponse answer found (option_copied waiting.entry) response.now now) result (K.store keeper.old) (K.store keeper.new) }
    ensures listed { IfErr result calls.OfResponse }
{
    let call = Call::Respond {
        waiting,
        response,
        now,
    };
    answer(keeper, alloc, &call)?;
    Ok(response.answered())
}

/// What a call changes.
fn changes_of<K: Keeper>(
    keeper: &mut K,
    alloc: Global,
    call: &Call,
) -> Result<Changes<CollectorForm>, CollectorFault>
    requires allowed { spec.IsAllowed call.now }
    requires ready { access.IsReady (K.store keeper.old) }
    ensures effect { IfSome (K.store keeper.new).rows (λ rows. Tells collector_store result (spec.effect_of call.now rows)) }
    ensures judged { IfSome (K.store keeper.new).rows (λ rows. spec.Judges call.now result rows) }
    ensures done { OnOk result (spec.MayBeDone call.now) }
    ensures listed { IfErr result (spec.IsRefusal call.now) }
    ensures reads { access.Reads AreFormed (fails collector_store result) (K.store keeper.old) (K.store keeper.new) }
{
    match call {
        Call::Add(subscription) => add_changes(keeper, alloc, subscription),
        Call::End(sub) => end_changes(keeper, alloc, sub),
        Call::Take {
            sub,
            source,
            batch,
            now,
        } => take_changes(keeper, alloc, sub, source, batch, *now),
        Call::TakeUnread(sub) => unread_changes(keeper, sub),
        Call::Hear { sub, source, now } => hear_changes(keeper, sub, source, *now),
        Call::Respond {
            waiting,
            response,
            now,
        } => response_changes(keeper, *waiting, response, *now),
        Call::Release => Ok(release_changes(keeper, alloc)?),
        Call::SourceEnded {
            sub,
            source,
            identifier,
        } => source_ended_changes(keeper, sub, source, identifier),
        Call::EndUnread(sub) => unread_end_changes(keeper, sub),
    }
}

/// Raises the boot number by one, and answers the memory that begins with it.
pub fn raise_boot<K: Keeper>(keeper: &mut K, alloc: Global) -> Result<Memory, CollectorFault>
    ensures call { IsCall collector_store AreFormed calls.boot_effect memory_begun result (K.store keeper.old) (K.store keeper.new) }
    ensures judged { DoesWith collector_store AreFormed calls.boot_effect memory_begun (λ answer found after. judged.JudgesStart answer found) result (K.store keeper.old) (K.store keeper.new) }
    ensures listed { IfErr result calls.OfStart }
{
    open(keeper)?;
    let starting = boot_changes(keeper, alloc)?;
    commit(keeper, &starting.changes)?;
    Ok(starting.memory)
}
