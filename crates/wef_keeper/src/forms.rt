//! Rows of their form: each row that an end reads is tested, and each that it puts passes the test.

ghost use Rattle.std.specs.Prelude.{◌≡◌, ◌≤◌, [], ◌∷◌, ◌++◌, Bool, true, take, IfOk, IfSome, OnOk};
ghost use Rattle.std.specs.FinMap as map;
ghost use Rattle.std.specs.List.{AllByRecursion, list_all};
ghost use Rattle.wef_keeper.specs.Access as access;
ghost use Rattle.wef_keeper.specs.Forms.{ArePassed, ArePut, AreWithin, IsPassedAt};
ghost use Rattle.wef_keeper.specs.Keeping.{row_at};
ghost use Rattle.wef_keeper.specs.Sections.{last_key, rows_under};
ghost use Rattle.wef_keeper.specs.declared.keys.Row as the_row;

use crate::access::{StoreFault, row, section, section_page};
use crate::keeping::Keeper;
use crate::keys::{Cell, Change, Depth, Key, Row};
use std::alloc::{AllocError, Global};
use std::marker::{Model, PhantomData};
use wef_base::List;
use wef_base::numbers::MAX;

/// The form of an end's rows, by their kinds.
pub trait Form {
    /// Whether a row is of its form. One of a kind that isn't the end's is.
    ghost passes: { the_row.Row → Bool };

    /// Tests a row.
    fn is_formed(row: &Row) -> Result<bool, AllocError>
        ensures { IfOk result (λ formed. formed ≡ passes row.now) };
}

/// Changes in order, which contracts see as a list. Each row that they put is of its form, and its
/// number and its value are at most `MAX`.
#[derive(Drop)]
pub struct Changes<F: Form> {
    list: List<Change>,
    form: PhantomData<F>,
}

impl<F: Form> Model for Changes<F> {
    ghost use Rattle.std.specs.Prelude.{List};
    ghost use Rattle.std.specs.Coded.{coded_list};
    ghost use Rattle.wef_keeper.specs.declared.keys.Change as change;
    ghost use Rattle.wef_keeper.specs.contracts.keys.Change as the_change;
    ghost use Rattle.wef_keeper.specs.Forms.{AreWithin, ArePut};

    ghost Value = { List change.Change };

    ghost coded = { coded_list the_change.the_row.coded };

    ghost view = { λ c. c.list };

    ghost invariant = { λ c. AreWithin c.list × ArePut F.passes c.list };
}

impl<F: Form> Changes<F> {
    /// No change. It takes no memory.
    pub fn new(alloc: Global) -> Changes<F>
        ensures { result ≡ [] }
    {
        Changes {
            list: List::new(alloc),
            form: PhantomData,
        }
    }

    /// Puts a row of its form.
    pub fn put(&mut self, row: Row) -> Result<(), AllocError>
        requires number { row.key.number ≤ MAX }
        requires value { row.value ≤ MAX }
        requires form { F.passes row ≡ true }
        ensures { OnOk result (self.new ≡ self.old ++ Change.Put row ∷ []) }
    {
        self.list.push(Change::Put(row))
    }

    /// Deletes what stands at a key.
    pub fn delete(&mut self, key: Key) -> Result<(), AllocError>
        ensures { OnOk result (self.new ≡ self.old ++ Change.Delete key ∷ []) }
    {
        self.list.push(Change::Delete(key))
    }

    /// The changes, as a list. It takes no memory.
    pub fn as_list(&self) -> &List<Change>
        ensures list { result.now ≡ self.now }
        ensures within { AreWithin self.now }
        ensures put { ArePut F.passes self.now }
    {
        &self.list
    }
}

/// What stands at a key, where a row does.
pub fn formed_cell<F: Form, K: Keeper>(
    keeper: &mut K,
    key: &Key,
) -> Result<Option<Cell>, StoreFault>
    requires { access.IsReady (K.store keeper.old) }
    ensures cell { IfSome (K.store keeper.new).rows (λ rows. IfOk result (λ cell. cell ≡ map.get rows key.now)) }
    ensures judged { IfSome (K.store keeper.new).rows (λ rows. OnOk result (IsPassedAt F.passes key.now rows)) }
    ensures reads { access.Reads (ArePassed F.passes) (access.fails result) (K.store keeper.old) (K.store keeper.new) }
{
    match formed_row::<F, K>(keeper, key)? {
        Some(row) => Ok(Some(Cell {
            value: row.value,
            body: row.body,
        })),
        None => Ok(None),
    }
}

/// The row of a key, or none where there is none. `Failed` where it isn't of its form.
pub fn formed_row<F: Form, K: Keeper>(keeper: &mut K, key: &Key) -> Result<Option<Row>, StoreFault>
    requires { access.IsReady (K.store keeper.old) }
    ensures row { IfSome (K.store keeper.new).rows (λ rows. IfOk result (λ row. row ≡ row_at key.now rows)) }
    ensures formed { IfOk result (λ found. IfSome found (λ row. F.passes row ≡ true)) }
    ensures judged { IfSome (K.store keeper.new).rows (λ rows. OnOk result (IsPassedAt F.passes key.now rows)) }
    ensures reads { access.Reads (ArePassed F.passes) (access.fails result) (K.store keeper.old) (K.store keeper.new) }
{
    let Some(row) = row(keeper, key)? else {
        return Ok(None);
    };
    if !F::is_formed(&row)? {
        return Err(StoreFault::Failed);
    }
    Ok(Some(row))
}

/// The first `max` rows behind a key that share its parts down to a depth. The rest of the section
/// is the section behind the page's last row. `Failed` where one of them isn't of its form.
pub fn formed_page<F: Form, K: Keeper>(
    keeper: &mut K,
    after: &Key,
    depth: Depth,
    max: u32,
) -> Result<List<Row>, StoreFault>
    requires max { 1 ≤ max }
    requires ready { access.IsReady (K.store keeper.old) }
    ensures formed { IfOk result (λ page. list_all F.passes page ≡ true) }
    ensures page { IfSome (K.store keeper.new).rows (λ rows. IfOk result (λ page. page ≡ take max (rows_under depth after.now rows))) }
    ensures rest { IfSome (K.store keeper.new).rows (λ rows. IfOk result (λ page. rows_under depth after.now rows ≡ page ++ rows_under depth (last_key after.now page) rows)) }
    ensures behind { IfOk result (AllByRecursion (access.IsBehind depth after.now)) }
    ensures reads { access.Reads (ArePassed F.passes) (access.fails result) (K.store keeper.old) (K.store keeper.new) }
{
    let page = section_page(keeper, after, depth, max)?;
    if !are_formed::<F>(page.as_slice())? {
        return Err(StoreFault::Failed);
    }
    Ok(page)
}

/// All rows behind a key that share its parts down to a depth. `Failed` where one of them isn't of
/// its form.
pub fn formed_section<F: Form, K: Keeper>(
    keeper: &mut K,
    after: &Key,
    depth: Depth,
) -> Result<List<Row>, StoreFault>
    requires { access.IsReady (K.store keeper.old) }
    ensures formed { IfOk result (λ section. list_all F.passes section ≡ true) }
    ensures section { IfSome (K.store keeper.new).rows (λ rows. IfOk result (λ section. section ≡ rows_under depth after.now rows)) }
    ensures reads { access.Reads (ArePassed F.passes) (access.fails result) (K.store keeper.old) (K.store keeper.new) }
{
    let section = section(keeper, after, depth)?;
    if !are_formed::<F>(section.as_slice())? {
        return Err(StoreFault::Failed);
    }
    Ok(section)
}

/// Whether all rows are of their form.
fn are_formed<F: Form>(rows: &[Row]) -> Result<bool, AllocError>
    ensures { IfOk result (λ all. all ≡ list_all F.passes rows.now) }
{
    for row in rows {
        if !F::is_formed(row)? {
            return Ok(false);
        }
    }
    Ok(true)
}
