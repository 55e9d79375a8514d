//! An end as a world holds it: it runs, or its store alone is left.

ghost use Rattle.std.specs.Borrow.{LendsIf, sem};
ghost use Rattle.std.specs.Prelude.{◌≡◌, IfOk, OnOk};
ghost use Rattle.wef_machine.specs.Arming as arming;

use crate::faults::WorldFault;
use std::alloc::Global;
use std::mem;
use wef_keeper::{Keeper, MemKeeper, Plan, StoreFault};
use wef_machine::{Armed, Fate};

/// What a world asks of an end, whatever the end does.
pub trait End: Drop {
    ghost use Rattle.std.specs.Prelude.{◌≡◌, Option, Ok, Err, MatchResult};
    ghost use Rattle.wef_keeper.specs.Calls.{Effect, IsCall};
    ghost use Rattle.wef_keeper.specs.Keeping.{is_armed};
    ghost use Rattle.wef_keeper.specs.Rows.{Rows};
    ghost use Rattle.wef_keeper.specs.declared.access.StoreFault as the_store_fault;
    ghost use Rattle.wef_keeper.specs.declared.keeping.Plan as the_plan;
    ghost use Rattle.wef_keeper.specs.declared.mem_keeper.MemKeeper as the_keeper;

    /// What the end is started with, beside its store.
    type Origin;

    /// What it remembers while it runs.
    type Memory;

    /// Why it refuses a call.
    type Fault: Drop;

    /// The store that it runs over.
    ghost keeper: { Self → the_keeper.MemKeeper };

    /// What it remembers.
    ghost memory: { Self → Self.Memory };

    /// It, with its store's next commit planned so.
    ghost with_plan: { Self → the_plan.Plan → Self };

    /// Which of its faults are its store's.
    ghost of_store: { Self.Fault → Option the_store_fault.StoreFault };

    /// The form of its rows.
    ghost AreFormed: { Rows → Type 0 };

    /// What a start does to the rows that it finds.
    ghost start_effect: { Self.Origin → Rows → Effect Self.Fault };

    /// What it remembers since.
    ghost start_memory: { Self.Origin → Rows → Self.Memory };

    /// Starts the end over its store. A refused start hands the store back.
    fn start_over(
        alloc: Global,
        store: MemKeeper,
        origin: &Self::Origin,
    ) -> Result<Self, (MemKeeper, Self::Fault)>
        ensures { MatchResult result
            (λ end. IsCall of_store AreFormed (start_effect origin.now) (start_memory origin.now) (Ok (memory end)) (⟦<MemKeeper as Keeper>⟧.store store) (⟦<MemKeeper as Keeper>⟧.store (keeper end)))
            (λ refused. IsCall of_store AreFormed (start_effect origin.now) (start_memory origin.now) (Err refused.1) (⟦<MemKeeper as Keeper>⟧.store store) (⟦<MemKeeper as Keeper>⟧.store refused.0)) };

    /// Which fault of the store a fault is.
    fn store_fault(fault: &Self::Fault) -> Option<StoreFault>
        ensures { result ≡ of_store fault.now };

    /// Plans the store's next commit.
    fn plan_commit(&mut self, plan: Plan)
        ensures { self.new ≡ with_plan self.old plan };

    /// Whether the store's next commit is planned to fail.
    fn is_planned(&self) -> bool
        ensures { result ≡ is_armed (keeper self.now).plan };

    /// The store, as it stands. What is remembered is lost.
    fn into_store(self) -> MemKeeper
        ensures { result ≡ keeper self };

    // Planning a commit changes nothing else.
    ghost plans_store: { (e : Self) (plan : the_plan.Plan) → keeper (with_plan e plan) ≡ record (keeper e) { plan = plan } };

    ghost plans_alone: { (e : Self) (plan : the_plan.Plan) → memory (with_plan e plan) ≡ memory e };
}

/// An end that runs, or the store of one that doesn't.
#[derive(Drop)]
pub enum Place<E> {
    Running(E),
    Closed(MemKeeper),
}

impl<E> Place<E> {
    ghost use Rattle.std.specs.Option.{option_copied, option_map};
    ghost use Rattle.wef_places.specs.Places.{end_in};
    ghost use Rattle.wef_places.specs.contracts.places.Place.{the_row};
    ghost use Rattle.wef_places.specs.declared.places.Place.TheVariants.{Running};

    /// Shows the end, where it runs.
    fn end(&self) -> Option<&E>
        ensures { option_copied result ≡ end_in self.now }
    {
        match self {
            Place::Running(end) => Some(end),
            Place::Closed(_) => None,
        }
    }

    /// Lends the end, where it runs.
    fn running(&mut self) -> Option<&mut E>
        ensures* writes_back { sem 𝓛 (LendsIf (the_row E.row) E.row self.entry result Running self.old) }
        ensures value { option_map (λ end. end.now) result ≡ end_in self.old }
    {
        match self {
            Place::Running(end) => Some(end),
            Place::Closed(_) => None,
        }
    }
}

/// What became of using an end, which is opened first.
#[derive(Drop)]
pub enum Used<T> {
    /// It couldn't be opened: its start went so.
    Closed(Fate),
    Answered(T),
}

/// What became of a call that changes an end's rows.
#[derive(Drop)]
pub enum Called<T, F> {
    /// It is done, and answered this.
    Done(T),
    /// It isn't: its commit went so.
    Broken(Fate),
    Refused(F),
}

/// An end, and how its next commit fails, where that is arranged.
#[derive(Drop)]
pub struct Placed<E> {
    place: Place<E>,
    armed: Option<Armed>,
}

impl<E: End> Placed<E> {
    ghost use Rattle.std.specs.Option.{option_copied, option_map};
    ghost use Rattle.std.specs.Prelude.{None};
    ghost use Rattle.wef_keeper.specs.Keeping.{is_armed};
    ghost use Rattle.wef_machine.specs.Places as machine;
    ghost use Rattle.wef_places.specs.Places as places;
    ghost use Rattle.wef_places.specs.contracts.places.Placed.{the_row};
    ghost use Rattle.wef_places.specs.declared.places.Place.TheVariants.{Closed};

    /// An end that never ran. It takes no memory.
    pub fn new(alloc: Global) -> Placed<E>
        ensures { result ≡ record { place = Closed places.new_keeper; armed = None } }
    {
        Placed {
            place: Place::Closed(MemKeeper::new(alloc)),
            armed: None,
        }
    }

    /// Whether the changes of the next commit are kept.
    pub fn keeps(&self) -> bool
        ensures { result ≡ arming.is_kept self.now.armed }
    {
        match self.armed {
            Some(armed) => armed.after,
            None => true,
        }
    }

    /// Has the next commit fail, or not.
    pub fn arm(&mut self, armed: Option<Armed>)
        ensures { self.new ≡ record self.old { armed = armed } }
    {
        self.armed = armed;
    }

    /// Stops the end at once, as a crash does: its store alone is left.
    pub fn crash(&mut self, alloc: Global)
        ensures { self.new ≡ record self.old { place = places.crashed E.keeper self.old.place } }
    {
        let mut keeper = match mem::replace(&mut self.place, Place::Closed(MemKeeper::new(alloc))) {
            Place::Running(end) => end.into_store(),
            Place::Closed(keeper) => keeper,
        };
        keeper.crash();
        self.place = Place::Closed(keeper);
    }

    /// The store as it stands, also where the end runs. What is remembered is lost.
    pub fn into_store(self) -> MemKeeper
        ensures { result ≡ places.keeper_in E.keeper self.place }
    {
        match self.place {
            Place::Running(end) => end.into_store(),
            Place::Closed(keeper) => keeper,
        }
    }

    /// Shows the end, where it runs.
    pub fn end(&self) -> Option<&E>
        ensures { option_copied result ≡ places.end_in self.now.place }
    {
        self.place.end()
    }

    /// Lends the end, where it runs.
    pub fn running(&mut self) -> Option<&mut E>
        ensures* writes_back { sem 𝓛 (LendsIf (the_row E.row) E.row self.entry result (places.running_with self.old.armed) self.old) }
        ensures value { option_map (λ end. end.now) result ≡ places.end_in self.old.place }
    {
        self.place.running()
    }

    /// Lets the end run, if it doesn't yet, and answers how that went. The store's next commit is
    /// planned as it is armed.
    pub fn open(&mut self, alloc: Global, origin: &E::Origin) -> Result<Fate, WorldFault>
        requires formed { E.AreFormed (places.keeper_in E.keeper self.old.place).rows }
        ensures opened { OnOk result (places.seen E.keeper E.memory self.new ≡ machine.opened (places.seen E.keeper E.memory self.old)
            (E.start_memory origin.now (places.keeper_in E.keeper self.old.place).rows) (E.start_effect origin.now (places.keeper_in E.keeper self.old.place).rows)) }
        ensures fate { IfOk result (λ fate. fate ≡ machine.opening (places.seen E.keeper E.memory self.old) (E.start_effect origin.now (places.keeper_in E.keeper self.old.place).rows)) }
        ensures planned { OnOk result (places.IsPlanned E.keeper self.new) }
    {
        self.arrange();
        let Some(keeper) = self.take_closed(alloc) else {
            return Ok(Fate::Done);
        };
        match E::start_over(alloc, keeper, origin) {
            Ok(end) => {
                self.place = Place::Running(end);
                Ok(self.settle(alloc, false))
            }
            Err((keeper, fault)) => {
                self.place = Place::Closed(keeper);
                match E::store_fault(&fault) {
                    Some(StoreFault::NoMemory) => Err(WorldFault::NoMemory),
                    Some(StoreFault::Failed) => Ok(self.settle(alloc, true)),
                    None => Ok(Fate::Failed),
                }
            }
        }
    }

    /// What became of a call of the end, once what was armed is settled.
    pub fn settle_call<T: Drop>(
        &mut self,
        alloc: Global,
        answer: Result<T, E::Fault>,
    ) -> Result<Called<T, E::Fault>, WorldFault>
        ensures { IfOk result (places.Settles E.keeper E.of_store answer self.old self.new) }
    {
        match answer {
            Ok(value) => {
                let _done = self.settle(alloc, false);
                Ok(Called::Done(value))
            }
            Err(fault) => match E::store_fault(&fault) {
                Some(StoreFault::NoMemory) => Err(WorldFault::NoMemory),
                Some(StoreFault::Failed) => Ok(Called::Broken(self.settle(alloc, true))),
                None => Ok(Called::Refused(fault)),
            },
        }
    }

    /// What a call leaves of which only the store tells how it went: it failed where a failure is
    /// armed that the store doesn't plan any more.
    pub fn settle_answered(&mut self, alloc: Global) -> Fate
        ensures fate { result ≡ places.fate_by (places.is_used_up E.keeper self.old) self.old.armed }
        ensures settled { self.new ≡ places.settled E.keeper result self.old }
    {
        let has_failed = self.armed.is_some() && !self.is_planned();
        self.settle(alloc, has_failed)
    }

    /// Plans the store's next commit as it is armed.
    fn arrange(&mut self)
        ensures { self.new ≡ record self.old { place = places.arranged E.with_plan (arming.plan_of self.old.armed) self.old.place } }
    {
        let plan = plan_of(self.armed);
        match &mut self.place {
            Place::Running(end) => end.plan_commit(plan),
            Place::Closed(keeper) => keeper.arrange(plan),
        }
    }

    /// Takes the store of an end that doesn't run, and leaves an empty one. None where the end runs.
    fn take_closed(&mut self, alloc: Global) -> Option<MemKeeper>
        ensures { places.Takes self.old.place self.old.armed result self.new }
    {
        match mem::replace(&mut self.place, Place::Closed(MemKeeper::new(alloc))) {
            Place::Running(end) => {
                self.place = Place::Running(end);
                None
            }
            Place::Closed(keeper) => Some(keeper),
        }
    }

    /// What a call leaves armed, and how its commit went, which was planned as armed. An end that is
    /// stopped in it runs no more.
    fn settle(&mut self, alloc: Global, has_failed: bool) -> Fate
        ensures fate { result ≡ places.fate_by has_failed self.old.armed }
        ensures settled { self.new ≡ places.settled E.keeper result self.old }
    {
        let fate = if has_failed {
            fate_of(self.armed)
        } else {
            Fate::Done
        };
        if !self.is_planned() {
            self.armed = None;
        }
        if fate == Fate::Stopped {
            self.crash(alloc);
        }
        fate
    }

    /// Whether the store's next commit is planned to fail.
    fn is_planned(&self) -> bool
        ensures { result ≡ is_armed (places.keeper_in E.keeper self.now.place).plan }
    {
        match &self.place {
            Place::Running(end) => end.is_planned(),
            Place::Closed(keeper) => keeper.is_armed(),
        }
    }
}

/// What a store's next commit is planned to do.
fn plan_of(armed: Option<Armed>) -> Plan
    ensures { result ≡ arming.plan_of armed }
{
    match armed {
        Some(armed) => Plan::Fails { kept: armed.after },
        None => Plan::Done,
    }
}

/// How the next commit goes.
fn fate_of(armed: Option<Armed>) -> Fate
    ensures { result ≡ arming.fate_of armed }
{
    match armed {
        Some(armed) if armed.stops => Fate::Stopped,
        Some(_) => Fate::Failed,
        None => Fate::Done,
    }
}
