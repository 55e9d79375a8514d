//! How the ends use a keeper: it is opened, read, and given whole lists of changes.

ghost use Rattle.std.specs.Prelude.{◌≡◌, ◌≤◌, ◌++◌, true, false, take, Option, IfOk, IfSome, OnOk};
ghost use Rattle.std.specs.List.{AllByRecursion};
ghost use Rattle.wef_base.specs.Counts.{Rose};
ghost use Rattle.wef_keeper.specs.Access as access;
ghost use Rattle.wef_keeper.specs.Forms.{ArePut};
ghost use Rattle.wef_keeper.specs.Keeping.{row_at};
ghost use Rattle.wef_keeper.specs.Sections.{last_key, rows_under};

use crate::forms::{Changes, Form};
use crate::keeping::{Keeper, KeeperFault};
use crate::keys::{Depth, Key, Row};
use std::alloc::AllocError;
use thiserror::Error;
use wef_base::List;

/// Why an end's call of its store is refused.
#[derive(Clone, Copy, Debug, PartialEq, Eq, Error)]
pub enum StoreFault {
    /// Memory was wanting. The rows are as before.
    #[error("no memory")]
    NoMemory,

    /// The store failed. After a commit there is doubt.
    #[error("the store failed")]
    Failed,
}

impl From<AllocError> for StoreFault {
    ghost use Rattle.std.specs.Prelude.{◌≡◌};
    ghost use Rattle.wef_keeper.specs.declared.access.StoreFault.TheVariants.{NoMemory};

    ghost from_gives = { λ _ e. e ≡ NoMemory };

    fn from(_error: AllocError) -> StoreFault {
        StoreFault::NoMemory
    }
}

impl From<KeeperFault> for StoreFault {
    ghost use Rattle.std.specs.Prelude.{◌≡◌};
    ghost use Rattle.wef_keeper.specs.Access as access;

    ghost from_gives = { λ fault e. e ≡ access.store_fault fault };

    fn from(fault: KeeperFault) -> StoreFault {
        match fault {
            KeeperFault::NoMemory => StoreFault::NoMemory,
            KeeperFault::Failed | KeeperFault::InDoubt => StoreFault::Failed,
        }
    }
}

/// Makes a keeper ready: opened, and out of doubt with one of its images. Each call asks the keeper
/// to open again, whether there is doubt or not.
#[tactic(auto, using(crate::proofs::Openings::narrows_kept))]
pub fn open<K: Keeper>(keeper: &mut K) -> Result<(), StoreFault>
    ensures ready { OnOk result (access.IsReady (K.store keeper.new)) }
    ensures found { access.fails result ≡ false → access.Finds (K.store keeper.old) (K.store keeper.new) }
    ensures opened { access.OpensAndReads access.AnyRows (access.fails result) (K.store keeper.old) (K.store keeper.new) }
    ensures fault { access.fails result ≡ true → Rose (K.store keeper.old).faults (K.store keeper.new).faults }
    ensures refused { access.IsRefused result (K.store keeper.old) (K.store keeper.new) }
{
    keeper.reopen()?;
    Ok(())
}

/// The row of a key, or none where there is none.
pub fn row<K: Keeper>(keeper: &mut K, key: &Key) -> Result<Option<Row>, StoreFault>
    requires { access.IsReady (K.store keeper.old) }
    ensures row { IfSome (K.store keeper.new).rows (λ rows. IfOk result (λ row. row ≡ row_at key.now rows)) }
    ensures reads { access.Reads access.AnyRows (access.fails result) (K.store keeper.old) (K.store keeper.new) }
    ensures fault { access.fails result ≡ true → Rose (K.store keeper.old).faults (K.store keeper.new).faults }
{
    Ok(keeper.get(key)?)
}

/// The first `max` rows behind a key that share its parts down to a depth. The rest of the section
/// is the section behind the page's last row.
pub fn section_page<K: Keeper>(
    keeper: &mut K,
    after: &Key,
    depth: Depth,
    max: u32,
) -> Result<List<Row>, StoreFault>
    requires ready { access.IsReady (K.store keeper.old) }
    requires max { 1 ≤ max }
    ensures page { IfSome (K.store keeper.new).rows (λ rows. IfOk result (λ page. page ≡ take max (rows_under depth after.now rows))) }
    ensures rest { IfSome (K.store keeper.new).rows (λ rows. IfOk result (λ page. rows_under depth after.now rows ≡ page ++ rows_under depth (last_key after.now page) rows)) }
    ensures behind { IfOk result (AllByRecursion (access.IsBehind depth after.now)) }
    ensures reads { access.Reads access.AnyRows (access.fails result) (K.store keeper.old) (K.store keeper.new) }
    ensures fault { access.fails result ≡ true → Rose (K.store keeper.old).faults (K.store keeper.new).faults }
{
    let page = keeper.page(after, max)?;
    Ok(front(after, depth, page)?)
}

/// The rows in front of the first that isn't of the section.
fn front(after: &Key, depth: Depth, rows: List<Row>) -> Result<List<Row>, AllocError>
    ensures { IfOk result (λ kept. kept ≡ access.front_rows depth after.now rows) }
{
    let mut kept = List::new(after.sub.alloc());
    for row in rows.into_vec() {
        if !depth.is_shared(after, &row.key) {
            return Ok(kept);
        }
        kept.push(row)?;
    }
    Ok(kept)
}

/// How many rows are read at once.
pub const PAGE: u32 = 256;

/// All rows behind a key that share its parts down to a depth.
pub fn section<K: Keeper>(
    keeper: &mut K,
    after: &Key,
    depth: Depth,
) -> Result<List<Row>, StoreFault>
    requires { access.IsReady (K.store keeper.old) }
    ensures section { IfSome (K.store keeper.new).rows (λ rows. IfOk result (λ section. section ≡ rows_under depth after.now rows)) }
    ensures reads { access.Reads access.AnyRows (access.fails result) (K.store keeper.old) (K.store keeper.new) }
    ensures fault { access.fails result ≡ true → Rose (K.store keeper.old).faults (K.store keeper.new).faults }
{
    let mut section = List::new(after.sub.alloc());
    let mut last = after.clone()?;
    loop {
        let page = section_page(keeper, &last, depth, PAGE)?;
        let is_last = page.len() < PAGE as usize;
        last = last_key_of(last, page.as_slice())?;
        push_all(&mut section, page)?;
        if is_last {
            return Ok(section);
        }
    }
}

fn push_all(section: &mut List<Row>, page: List<Row>) -> Result<(), AllocError>
    ensures { OnOk result (section.new ≡ section.old ++ page) }
{
    for row in page.into_vec() {
        section.push(row)?;
    }
    Ok(())
}

/// The key of the last row, and the one given where there is none.
pub fn last_key_of(after: Key, page: &[Row]) -> Result<Key, AllocError>
    ensures { IfOk result (λ key. key ≡ last_key after page.now) }
{
    match page.split_last() {
        Some((row, _)) => Ok(row.key.clone()?),
        None => Ok(after),
    }
}

/// Commits a list of changes. One that changes nothing begins no commit.
pub fn commit<F: Form, K: Keeper>(keeper: &mut K, changes: &Changes<F>) -> Result<(), StoreFault>
    requires { access.IsReady (K.store keeper.old) }
    ensures put { ArePut F.passes changes.now }
    ensures leaves { access.Leaves changes.now result (K.store keeper.old) (K.store keeper.new) }
    ensures planned { IfSome (K.store keeper.old).plan (λ planned. access.LeavesPlanned changes.now planned result (K.store keeper.old) (K.store keeper.new)) }
    ensures faults { (K.store keeper.old).faults ≤ (K.store keeper.new).faults }
{
    let changes = changes.as_list();
    if changes.is_empty() {
        return Ok(());
    }
    keeper.commit(changes)?;
    Ok(())
}
