//! The collector in a world: how it is opened, its calls that change rows, what it asks and what it hears.

ghost use Rattle.std.specs.Prelude.{◌≡◌, Some, IfOk, OnOk};
ghost use Rattle.wef_collector.specs.declared.responses.Response.{Response};
ghost use Rattle.wef_collector_rows.specs.Faults.{collector_store};
ghost use Rattle.wef_collector_rows.specs.Forms as forms;
ghost use Rattle.wef_eventing.specs.Addresses.{IsHost};
ghost use Rattle.wef_front_collector.specs.HeardResponses.{response_told};
ghost use Rattle.wef_ids.specs.declared.MessageId.{MessageId};
ghost use Rattle.wef_keeper.specs.Calls.{IsCall};
ghost use Rattle.wef_machine.specs.Collecting.{collector_opened, collector_opening};
ghost use Rattle.wef_places.specs.Collected as collected;
ghost use Rattle.wef_places.specs.Collected.{collector_of};
ghost use Rattle.wef_places.specs.Counted as counts;
ghost use Rattle.wef_places.specs.Made.{IsAllowed, effect_of};
ghost use Rattle.wef_places.specs.Places as places;

use crate::answers::Answers;
use crate::faults::WorldFault;
use crate::places::{Called, End, Placed, Used};
use std::alloc::Global;
use wef_base::{Bytes, Moment, SourceName, SubId, Text};
use wef_batch::Batch;
use wef_collector::{Answered, Collector, CollectorFault, Memory, Request};
use wef_eventing::Subscription;
use wef_front_collector::Hears;
use wef_keeper::{Keeper, MemKeeper, Plan, StoreFault};
use wef_machine::Fate;

/// The collector, and how its next commit fails, where that is arranged.
pub type CollectorPlace = Placed<Collector<MemKeeper>>;

impl End for Collector<MemKeeper> {
    ghost use Rattle.std.specs.Prelude.{refl};
    ghost use Rattle.wef_collector.specs.Boots.{memory_begun};
    ghost use Rattle.wef_collector.specs.Calls as calls;
    ghost use Rattle.wef_collector_rows.specs.Faults.{collector_store};
    ghost use Rattle.wef_collector_rows.specs.Forms as forms;

    type Origin = ();

    type Memory = Memory;

    type Fault = CollectorFault;

    ghost keeper = { λ c. c.keeper };

    ghost memory = { λ c. c.memory };

    ghost with_plan = { λ c plan. record c { keeper = record c.keeper { plan = plan } } };

    ghost of_store = { collector_store };

    ghost AreFormed = { forms.AreFormed };

    ghost start_effect = { λ _. calls.boot_effect };

    ghost start_memory = { λ _. memory_begun };

    ghost plans_store = { λ _ _. refl };

    ghost plans_alone = { λ _ _. refl };

    fn start_over(
        alloc: Global,
        store: MemKeeper,
        _origin: &(),
    ) -> Result<Collector<MemKeeper>, (MemKeeper, CollectorFault)> {
        Collector::start(alloc, store)
    }

    fn store_fault(fault: &CollectorFault) -> Option<StoreFault> {
        match fault {
            CollectorFault::NoMemory => Some(StoreFault::NoMemory),
            CollectorFault::Failed => Some(StoreFault::Failed),
            _ => None,
        }
    }

    fn plan_commit(&mut self, plan: Plan) {
        self.arrange(plan);
    }

    fn is_planned(&self) -> bool {
        self.is_armed()
    }

    fn into_store(self) -> MemKeeper {
        self.into_keeper()
    }
}

/// Lets the collector run, if it doesn't yet, and answers how that went. Rows of their form stay so.
pub fn open(collector: &mut CollectorPlace, alloc: Global) -> Result<Fate, WorldFault>
    requires formed { forms.AreFormed (collector_of collector.old).rows }
    ensures collector { OnOk result (collector_of collector.new ≡ collector_opened (collector_of collector.old)) }
    ensures fate { IfOk result (λ fate. fate ≡ collector_opening (collector_of collector.old)) }
    ensures planned { OnOk result (places.IsPlanned (λ c. c.keeper) collector.new) }
    ensures formed { OnOk result (forms.AreFormed (collector_of collector.new).rows) }
{
    collector.open(alloc, &())
}

/// A call of the collector that changes rows.
#[derive(Clone, Copy)]
pub enum Call<'a> {
    /// Adds a subscription.
    Add(&'a Subscription),
    /// Ends a subscription.
    End(&'a SubId),
    /// Takes a batch of a source for a subscription, at a moment.
    Take {
        sub: &'a SubId,
        source: &'a SourceName,
        batch: &'a Batch,
        now: &'a Moment,
    },
}

/// Makes a call of the collector, which is opened first.
pub fn make_call(
    collector: &mut CollectorPlace,
    alloc: Global,
    call: Call<'_>,
) -> Result<Used<Called<(), CollectorFault>>, WorldFault>
    requires formed { forms.AreFormed (collector_of collector.old).rows }
    requires allowed { IsAllowed call }
    ensures collector { OnOk result (collector_of collector.new ≡ places.called_at (collector_opened (collector_of collector.old)) (effect_of call.entry)) }
    ensures called { IfOk result (places.CameTo (collector_opening (collector_of collector.old)) (collector_opened (collector_of collector.old)) (effect_of call.entry) (λ _. tt)) }
{
    let fate = open(collector, alloc)?;
    let Some(running) = collector.running() else {
        return Ok(Used::Closed(fate));
    };
    let answer = answer_to(running, call);
    Ok(Used::Answered(collector.settle_call(alloc, answer)?))
}

/// Lets the collector send its next request, whose answer it then waits for. None where nothing is due.
/// Events come to the host.
pub fn ask(
    collector: &mut CollectorPlace,
    alloc: Global,
    host: &Text,
    now: Moment,
) -> Result<Used<Option<Request>>, WorldFault>
    requires formed { forms.AreFormed (collector_of collector.old).rows }
    ensures collector { OnOk result (collector_of collector.new ≡ collected.asked_left host.now now (collector_opened (collector_of collector.old))) }
    ensures asked { IfOk result (collected.AsksAs (collector_opening (collector_of collector.old)) host.now now (collector_opened (collector_of collector.old))) }
    ensures texts { IsHost host.now → IfOk result collected.CanAllBeRequested }
{
    let fate = open(collector, alloc)?;
    let Some(running) = collector.running() else {
        return Ok(Used::Closed(fate));
    };
    match running.next_request(host, now) {
        Ok(asked) => Ok(Used::Answered(asked)),
        Err(_) => Err(WorldFault::NoMemory),
    }
}

/// Lets the collector wait for no answer any longer.
pub fn forget(collector: &mut CollectorPlace, alloc: Global) -> Result<Used<()>, WorldFault>
    requires formed { forms.AreFormed (collector_of collector.old).rows }
    ensures collector { OnOk result (collector_of collector.new ≡ collected.forgot_left (collector_opened (collector_of collector.old))) }
    ensures used { IfOk result (collected.ForgetsAs (collector_opening (collector_of collector.old)) (collector_opened (collector_of collector.old))) }
{
    let fate = open(collector, alloc)?;
    let Some(running) = collector.running() else {
        return Ok(Used::Closed(fate));
    };
    running.forget();
    Ok(Used::Answered(()))
}

/// Lets the collector give up its leases. Whether that is done only the collector shows: a commit that
/// fails is passed over.
pub fn release(collector: &mut CollectorPlace, alloc: Global) -> Result<(), WorldFault>
    requires formed { forms.AreFormed (collector_of collector.old).rows }
    ensures collector { OnOk result (collector_of collector.new ≡ collected.released_left (collector_opened (collector_of collector.old))) }
{
    open(collector, alloc)?;
    let Some(running) = collector.running() else {
        return Ok(());
    };
    let released = running.release();
    collector.settle_call(alloc, released)?;
    Ok(())
}

/// Gives the collector the bytes of an answer to a request, at a moment.
pub fn hear<A: Answers>(
    collector: &mut CollectorPlace,
    alloc: Global,
    answers: &mut A,
    body: &Bytes,
    now: Moment,
) -> Result<Used<Called<Answered, CollectorFault>>, WorldFault>
    requires formed { forms.AreFormed (collector_of collector.old).rows }
    ensures collector { OnOk result ((relates : MessageId) (answer : Response) → response_told now body.now ≡ Some (relates, answer)
        → collector_of collector.new ≡ collected.heard_left relates answer now (collector_opened (collector_of collector.old))) }
    ensures came { IfOk result (λ used. (relates : MessageId) (answer : Response) → response_told now body.now ≡ Some (relates, answer)
        → collected.HearsAs (collector_opening (collector_of collector.old)) (collector_opened (collector_of collector.old)) relates answer now used) }
    ensures calls { OnOk result (A.calls answers.new ≡ counts.counted (counts.once (counts.is_open (collector_opened (collector_of collector.old)))) (A.calls answers.old)) }
{
    let fate = open(collector, alloc)?;
    let Some(running) = collector.running() else {
        return Ok(Used::Closed(fate));
    };
    let hears = answers.collector_hears(running, body, now)?;
    let fate = collector.settle_answered(alloc);
    Ok(Used::Answered(called_as_heard(hears, fate)))
}

/// What was heard, as what a call came to, by how its commit went.
fn called_as_heard(hears: Hears, fate: Fate) -> Called<Answered, CollectorFault>
    ensures { result ≡ collected.called_as_heard hears fate }
{
    match hears {
        Hears::Leased => Called::Done(Answered::Leased),
        Hears::Cleared => Called::Done(Answered::Cleared),
        Hears::Failed => Called::Broken(fate),
        Hears::NotAsked | Hears::Unreadable => Called::Refused(CollectorFault::NotAsked),
    }
}

/// What a collector that runs answers to a call.
fn answer_to(collector: &mut Collector<MemKeeper>, call: Call<'_>) -> Result<(), CollectorFault>
    requires { IsAllowed call }
    ensures call { IsCall collector_store forms.AreFormed (effect_of call.entry) (λ _. tt) result (⟦<MemKeeper as Keeper>⟧.store collector.old.keeper) (⟦<MemKeeper as Keeper>⟧.store collector.new.keeper) }
    ensures memory { collector.new.memory ≡ collector.old.memory }
{
    match call {
        Call::Add(subscription) => collector.add(subscription),
        Call::End(sub) => collector.end(sub),
        Call::Take {
            sub,
            source,
            batch,
            now,
        } => collector.take(sub, source, batch, *now),
    }
}
