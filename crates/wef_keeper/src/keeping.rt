//! The store contract: what the ends ask of whatever keeps their rows.

ghost use Rattle.std.specs.Prelude.{◌≡◌, if◌then◌else◌, ◌≤◌, ◌<◌, true, length, take, ◌∷◌, [], Option, IfOk, IfSome, OnOk, OnErr, All};
ghost use Rattle.wef_keeper.specs.Forms.{AreWithin};
ghost use Rattle.wef_keeper.specs.Keeping.{Store, OfRows, OfImages, StaysOpened, StaysUntold, KeepsRows, IsAsBefore, IsCalm, IsLawful, raised, is_in_doubt, OnFailed, OnRefused, HasFault, counted, row_at, leaves_doubt, tried, IsBeforeOrAfter, FollowsPlan, outcome, plan_after, opened_after, stays_in_doubt, Reopens, IsOneOf};
ghost use Rattle.wef_keeper.specs.Rows.{applied, is_after, rows_after};
ghost use Rattle.wef_keeper.specs.declared.keys.Row as the_row;

use crate::keys::{Change, Key, Row};
use std::alloc::AllocError;
use thiserror::Error;
use wef_base::List;

/// Why a keeper refuses a call.
#[derive(Clone, Copy, Debug, PartialEq, Eq, Error)]
pub enum KeeperFault {
    /// Memory was wanting. Nothing began.
    #[error("no memory")]
    NoMemory,

    /// The store failed. After a commit there is doubt.
    #[error("the store failed")]
    Failed,

    /// A commit failed, and nobody has looked yet what it left. `reopen` does.
    #[error("the store is in doubt")]
    InDoubt,
}

impl From<AllocError> for KeeperFault {
    ghost use Rattle.std.specs.Prelude.{◌≡◌};
    ghost use Rattle.wef_keeper.specs.declared.keeping.KeeperFault.TheVariants.{NoMemory};

    ghost from_gives = { λ _ e. e ≡ NoMemory };

    fn from(_error: AllocError) -> KeeperFault {
        KeeperFault::NoMemory
    }
}

/// What the next commit of a store does, where that is told before.
#[derive(Clone, Copy, Debug, PartialEq, Eq)]
pub enum Plan {
    /// It is done.
    Done,

    /// It fails. Its changes are kept all the same where `kept` is true.
    Fails { kept: bool },
}

/// A store of rows. Its rows change by whole commits, and a commit that fails leaves doubt: either
/// all of its changes were kept or none, and only an opening finds which.
pub trait Keeper {
    /// What is known of the store.
    ghost store: { Self → Store };

    /// The row of a key, or none where there is none.
    fn get(&mut self, key: &Key) -> Result<Option<Row>, KeeperFault>
        ensures row { OfRows (store self.old) (store self.new) (λ before now. IfOk result (λ row. row ≡ row_at key.now before)) }
        ensures stays { IsAsBefore (store self.old) (store self.new) }
        ensures refused { is_in_doubt result ≡ (store self.old).doubt }
        ensures reads { (store self.new).reads ≡ raised (store self.old).reads }
        ensures fault { HasFault result (store self.old).faults (store self.new).faults }
        ensures calm { IsCalm result (store self.old) (store self.new) }
        ensures opened { StaysOpened (store self.old) (store self.new) };

    /// The first `max` rows whose keys are greater than `after`, in the order of their keys. Fewer
    /// than `max` are all that follow.
    fn page(&mut self, after: &Key, max: u32) -> Result<List<Row>, KeeperFault>
        requires { 1 ≤ max }
        ensures stays { IsAsBefore (store self.old) (store self.new) }
        ensures refused { is_in_doubt result ≡ (store self.old).doubt }
        ensures page { OfRows (store self.old) (store self.new) (λ before now. IfOk result (λ page. page ≡ take max (rows_after after.now before))) }
        ensures last { OfRows (store self.old) (store self.new) (λ before now. IfOk result (λ page. length page < max → page ≡ rows_after after.now before)) }
        ensures size { IfOk result (λ page. length page ≤ max) }
        ensures behind { IfOk result (All (λ (row : the_row.Row). is_after after.now row.key ≡ true)) }
        ensures reads { (store self.new).reads ≡ raised (store self.old).reads }
        ensures fault { HasFault result (store self.old).faults (store self.new).faults }
        ensures calm { IsCalm result (store self.old) (store self.new) }
        ensures opened { StaysOpened (store self.old) (store self.new) };

    /// Applies all changes in order, or none. Where it fails, either may be what the store kept. The
    /// numbers and values of the rows that are put are at most `MAX`.
    fn commit(&mut self, changes: &List<Change>) -> Result<(), KeeperFault>
        requires { AreWithin changes.now }
        ensures done { OnOk result (OfRows (store self.old) (store self.new) (λ before now. now ≡ applied changes.now before)) }
        ensures failed { OnFailed result (OfImages (store self.old) (store self.new) (λ before left. All (IsBeforeOrAfter changes.now before) left)) }
        ensures stays { OnRefused result (IsAsBefore (store self.old) (store self.new)) }
        ensures refused { is_in_doubt result ≡ (store self.old).doubt }
        ensures doubt { (store self.new).doubt ≡ leaves_doubt result }
        ensures tries { (store self.new).tries ≡ tried result (store self.old).tries }
        ensures reads { (store self.new).reads ≡ (store self.old).reads }
        ensures fault { HasFault result (store self.old).faults (store self.new).faults }
        ensures planned { IfSome (store self.old).plan (λ planned. FollowsPlan planned result) }
        ensures stands { OnFailed result (IfSome (store self.old).plan (λ planned. OfRows (store self.old) (store self.new) (λ before now. now ≡ outcome planned changes.now before))) }
        ensures left { OnFailed result (IfSome (store self.old).plan (λ planned. OfImages (store self.old) (store self.new) (λ before left. left ≡ outcome planned changes.now before ∷ []))) }
        ensures counted { IfSome (store self.old).plan (λ planned. (store self.new).faults ≡ counted result (store self.old).faults) }
        ensures plan { (store self.new).plan ≡ plan_after result (store self.old).plan }
        ensures opened { StaysOpened (store self.old) (store self.new) };

    /// Opens the store again. In doubt it finds what the failed commit left, which ends the doubt,
    /// or it fails and leaves the doubt.
    fn reopen(&mut self) -> Result<(), KeeperFault>
        ensures found { OnOk result (IfSome (store self.old).images (λ left. IfSome (store self.new).rows (IsOneOf left))) }
        ensures images { OnErr result (KeepsRows (store self.old) (store self.new)) }
        ensures untold { StaysUntold (store self.old) (store self.new) }
        ensures answers { Reopens result (store self.old).doubt }
        ensures doubt { (store self.new).doubt ≡ stays_in_doubt result (store self.old).doubt }
        ensures tries { (store self.new).tries ≡ (store self.old).tries }
        ensures reads { (store self.new).reads ≡ (store self.old).reads }
        ensures fault { HasFault result (store self.old).faults (store self.new).faults }
        ensures calm { IsCalm result (store self.old) (store self.new) }
        ensures plan { (store self.new).plan ≡ (store self.old).plan }
        ensures opened { (store self.new).opened ≡ opened_after result (store self.old).opened };

    /// What holds of the store at any moment.
    ghost lawful: { (k : Self) → IsLawful (store k) };
}

/// Counts a read, which is refused in doubt.
pub fn begin_read(reads: &mut u64, in_doubt: bool) -> Result<(), KeeperFault>
    ensures answer { result ≡ (if in_doubt then Err KeeperFault.InDoubt else Ok tt) }
    ensures count { reads.new ≡ raised reads.old }
{
    *reads = reads.saturating_add(1);
    if in_doubt {
        return Err(KeeperFault::InDoubt);
    }
    Ok(())
}
