//! A keeper in memory, which tells everything, and fails where it is told to.

ghost use Rattle.std.specs.Prelude.{◌≡◌, true, false, ◌∷◌, [], refl, IfOk, OnOk, OnErr};
ghost use Rattle.std.specs.FinMap as finite;
ghost use Rattle.std.specs.declared.option.Option.TheVariants.{Some};
ghost use Rattle.std.proofs.Common.{rules};
ghost use Rattle.wef_keeper.specs.Keeping.{outcome, raised, row_at};
ghost use Rattle.wef_keeper.specs.Keeping as keeping;
ghost use Rattle.wef_keeper.specs.declared.keeping.Plan.TheVariants.{Done, Fails};

use crate::keeping::{Keeper, KeeperFault, Plan, begin_read};
use crate::keys::{Change, Key, Row};
use crate::paging::row_at;
use crate::table::Rows;
use std::alloc::{AllocError, Global};
use wef_base::List;

/// Rows in memory. A commit fails only where it is armed to.
///
/// After a failed commit the rows are those that the store kept: with the changes or without, as
/// the commit was planned. So the end of the doubt takes no memory.
#[derive(Drop)]
pub struct MemKeeper {
    rows: Rows,
    plan: Plan,
    in_doubt: bool,
    tries: u64,
    reads: u64,
    faults: u64,
}

impl MemKeeper {
    /// A keeper without rows, not armed. It takes no memory.
    pub fn new(alloc: Global) -> MemKeeper
        ensures { result ≡ record { rows = finite.empty; plan = Done; in_doubt = false; tries = 0; reads = 0; faults = 0 } }
    {
        MemKeeper {
            rows: Rows::new(alloc),
            plan: Plan::Done,
            in_doubt: false,
            tries: 0,
            reads: 0,
            faults: 0,
        }
    }

    /// Plans the next commit. An earlier plan is replaced. A commit that is refused for want of
    /// memory or for doubt leaves the plan.
    pub fn arrange(&mut self, plan: Plan)
        ensures { self.new ≡ record self.old { plan = plan } }
    {
        self.plan = plan;
    }

    /// Arms the next commit: it fails, and its changes are kept where `after` is true.
    pub fn fail_next(&mut self, after: bool)
        ensures { self.new ≡ record self.old { plan = Fails after } }
    {
        self.arrange(Plan::Fails { kept: after });
    }

    /// Disarms the next commit.
    pub fn calm(&mut self)
        ensures { self.new ≡ record self.old { plan = Done } }
    {
        self.arrange(Plan::Done);
    }

    /// Ends the doubt with the rows that stand, as a crash and a new start do. It takes no memory.
    pub fn crash(&mut self)
        ensures { self.new ≡ record self.old { in_doubt = false } }
    {
        self.in_doubt = false;
    }

    /// Whether the next commit is armed.
    pub fn is_armed(&self) -> bool
        ensures { result ≡ keeping.is_armed self.now.plan }
    {
        match self.plan {
            Plan::Done => false,
            Plan::Fails { .. } => true,
        }
    }

    /// Counts a commit that has begun.
    fn count_try(&mut self)
        ensures { self.new ≡ record self.old { tries = raised self.old.tries } }
    {
        self.tries = self.tries.saturating_add(1);
    }
}

impl Keeper for MemKeeper {
    ghost store = { λ k. record {
      rows = Some k.rows;
      images = Some (k.rows ∷ []);
      doubt = k.in_doubt;
      tries = k.tries;
      reads = k.reads;
      faults = k.faults;
      opened = true;
      plan = Some k.plan;
    } };

    ghost lawful = { λ k. record { both = refl; tells = refl; few = Prim.search rules; only = λ _. refl; among = refl } };

    fn get(&mut self, key: &Key) -> Result<Option<Row>, KeeperFault> {
        begin_read(&mut self.reads, self.in_doubt)?;
        Ok(found_row(&self.rows, key)?)
    }

    #[tactic(auto, using(crate::proofs::Pages::page_behind))]
    fn page(&mut self, after: &Key, max: u32) -> Result<List<Row>, KeeperFault> {
        begin_read(&mut self.reads, self.in_doubt)?;
        Ok(self.rows.page(after, max)?)
    }

    /// An armed commit that wants memory for its changes is refused for it, and stays armed.
    fn commit(&mut self, changes: &List<Change>) -> Result<(), KeeperFault> {
        if self.in_doubt {
            return Err(KeeperFault::InDoubt);
        }
        if let Plan::Fails { kept } = self.plan {
            apply_where(&mut self.rows, changes, kept)?;
            self.count_try();
            self.faults = self.faults.saturating_add(1);
            self.plan = Plan::Done;
            self.in_doubt = true;
            return Err(KeeperFault::Failed);
        }
        self.rows.apply_shared(changes)?;
        self.count_try();
        Ok(())
    }

    fn reopen(&mut self) -> Result<(), KeeperFault> {
        self.in_doubt = false;
        Ok(())
    }
}

/// The row of a key, or none where there is none.
fn found_row(rows: &Rows, key: &Key) -> Result<Option<Row>, AllocError>
    ensures { IfOk result (λ row. row ≡ row_at key.now rows.now) }
{
    match rows.get(key) {
        Some(cell) => Ok(Some(row_at(key, cell)?)),
        None => Ok(None),
    }
}

/// Applies the changes of a commit that fails, where they are kept.
fn apply_where(rows: &mut Rows, changes: &List<Change>, kept: bool) -> Result<(), AllocError>
    ensures ok { OnOk result (rows.new ≡ outcome (Fails kept) changes.now rows.old) }
    ensures err { OnErr result (rows.new ≡ rows.old) }
{
    if kept {
        rows.apply_shared(changes)?;
    }
    Ok(())
}
