//! The tree that holds the cells, and how a list of changes is written into it.
//!
//! Each change is written where its key is found, and what stood there before is kept beside it. Only
//! a put may want memory, for a key that isn't there. If one fails, what stood before is written back,
//! from the last change to the first, and the rooms that are empty then are taken out; else those that
//! deletes left empty. Neither needs memory.

ghost use Rattle.std.specs.Prelude.{◌≡◌, ◌≤◌, ◌&&◌, ◌||◌, ◌++◌, [], ◌∷◌, length, true, false, cond, is_some, Some, IfOk, OnOk, OnErr};
ghost use Rattle.std.specs.BTreeMap.{IsOrdered, get};
ghost use Rattle.std.specs.Option.{option_copied};
ghost use Rattle.std.specs.Ordering.{eq_by_cmp};
ghost use Rattle.wef_keeper.specs.Cells.{is_empty_room, has, found, is_put, puts, is_deleted, deletes, undone, IsSettled};
ghost use Rattle.wef_keeper.specs.Rows.{found_after, cell_of, cell_of_row, key_cmp, key_of, is_named};
ghost use Rattle.wef_keeper.specs.declared.keys.Key.{Key as RowKey};

use crate::keys::{Cell, Change, Key, Row};
use std::alloc::{AllocError, Global};
use std::collections::BTreeMap;
use std::mem;

pub(crate) type Cells = BTreeMap<Key, Option<Cell>>;

/// The cell at a key.
pub(crate) fn cell_at<'a>(cells: &'a Cells, key: &Key) -> Option<&'a Cell>
    ensures { option_copied result ≡ found cells.now key.now }
{
    cells.get(key)?.as_ref()
}

/// Applies a list of changes, or leaves every cell as it was.
pub(crate) fn change_all(
    alloc: Global,
    cells: &mut Cells,
    changes: &[Change],
) -> Result<(), AllocError>
    requires { IsSettled cells.now }
    ensures ok { OnOk result ((q : RowKey) → found cells.new q ≡ found_after changes.now q (found cells.old q)) }
    ensures err { OnErr result ((q : RowKey) → found cells.new q ≡ found cells.old q) }
    ensures settled { IsSettled cells.new }
{
    let mut before = Vec::with_capacity(alloc, changes.len())?;
    if let Err(fault) = write_all(cells, changes, &mut before) {
        undo(cells, changes, before);
        sweep(cells, changes);
        return Err(fault);
    }
    sweep_deleted(cells, changes);
    Ok(())
}

/// Writes every change at its key, the first change first, and keeps what stood there before. If it
/// fails, some of the changes are written.
fn write_all(
    cells: &mut Cells,
    changes: &[Change],
    before: &mut Vec<Option<Cell>>,
) -> Result<(), AllocError>
    requires { before.now.items ≡ [] }
    ensures count { length before.new.items ≤ length changes.now }
    ensures undone { (q : RowKey) → undone before.new.items changes.now q (found cells.new q) ≡ found cells.old q }
    ensures others { (q : RowKey) → is_named changes.now q ≡ false → has cells.new q ≡ has cells.old q }
    ensures room { (q : RowKey) → has cells.old q ≡ true → has cells.new q ≡ true }
    ensures found { OnOk result ((q : RowKey) → found cells.new q ≡ found_after changes.now q (found cells.old q)) }
    ensures has { OnOk result ((q : RowKey) → has cells.new q ≡ (has cells.old q || is_put changes.now q)) }
{
    for change in changes {
        write_kept(cells, change, before)?;
    }
    Ok(())
}

/// Writes a change at its key. Answers what stood there before.
fn write(cells: &mut Cells, change: &Change) -> Result<Option<Cell>, AllocError>
    ensures before { IfOk result (λ before. before ≡ found cells.old (key_of change.now)) }
    ensures found { OnOk result ((q : RowKey) → found cells.new q ≡ cond (eq_by_cmp key_cmp (key_of change.now) q) (cell_of change.now) (found cells.old q)) }
    ensures has { OnOk result ((q : RowKey) → has cells.new q ≡ (has cells.old q || puts change.now q)) }
    ensures err_found { OnErr result ((q : RowKey) → found cells.new q ≡ found cells.old q) }
    ensures err_has { OnErr result ((q : RowKey) → has cells.new q ≡ has cells.old q) }
{
    match change {
        Change::Put(row) => put(cells, row),
        Change::Delete(key) => Ok(write_at(cells, key, None)),
    }
}

/// Writes a change at its key, and puts what stood there before behind what is kept already.
fn write_kept(
    cells: &mut Cells,
    change: &Change,
    before: &mut Vec<Option<Cell>>,
) -> Result<(), AllocError>
    ensures kept { OnOk result (before.new.items ≡ before.old.items ++ found cells.old (key_of change.now) ∷ []) }
    ensures found { OnOk result ((q : RowKey) → found cells.new q ≡ cond (eq_by_cmp key_cmp (key_of change.now) q) (cell_of change.now) (found cells.old q)) }
    ensures has { OnOk result ((q : RowKey) → has cells.new q ≡ (has cells.old q || puts change.now q)) }
    ensures err_kept { OnErr result (before.new.items ≡ before.old.items) }
    ensures err_found { OnErr result ((q : RowKey) → found cells.new q ≡ found cells.old q) }
    ensures err_has { OnErr result ((q : RowKey) → has cells.new q ≡ has cells.old q) }
{
    before.reserve(1)?;
    let cell = write(cells, change)?;
    match before.push(cell) {
        Ok(()) => Ok(()),
        Err(_) => unreachable!(),
    }
}

/// Puts a row at its key, by one search. Answers what stood there before.
fn put(cells: &mut Cells, row: &Row) -> Result<Option<Cell>, AllocError>
    ensures before { IfOk result (λ before. before ≡ found cells.old row.now.key) }
    ensures found { OnOk result ((q : RowKey) → found cells.new q ≡ cond (eq_by_cmp key_cmp row.now.key q) (Some (cell_of_row row.now)) (found cells.old q)) }
    ensures has { OnOk result ((q : RowKey) → has cells.new q ≡ (has cells.old q || eq_by_cmp key_cmp row.now.key q)) }
    ensures err_found { OnErr result ((q : RowKey) → found cells.new q ≡ found cells.old q) }
    ensures err_has { OnErr result ((q : RowKey) → has cells.new q ≡ has cells.old q) }
{
    let key = row.key.clone()?;
    let cell = row.to_cell()?;
    Ok(cells.insert(key, Some(cell))?.flatten())
}

/// Writes back what stood at the keys of the first changes, the last of them first. It takes no
/// memory: where there is no room, nothing stood.
fn undo(cells: &mut Cells, changes: &[Change], before: Vec<Option<Cell>>)
    requires { length before.items ≤ length changes.now }
    ensures found { (q : RowKey) → has cells.old q ≡ true → found cells.new q ≡ undone before.items changes.now q (found cells.old q) }
    ensures has { (q : RowKey) → has cells.new q ≡ has cells.old q }
{
    let mut before = before;
    while let Some(cell) = before.pop() {
        write_back(cells, &changes[before.len()], cell);
    }
}

/// Writes back what stood at the key of a change, where there is room.
fn write_back(cells: &mut Cells, change: &Change, cell: Option<Cell>)
    ensures found { (q : RowKey) → found cells.new q ≡ cond (eq_by_cmp key_cmp (key_of change.now) q && has cells.old q) cell (found cells.old q) }
    ensures has { (q : RowKey) → has cells.new q ≡ has cells.old q }
{
    let _written = write_at(cells, change.key(), cell);
}

/// Writes what stands at a key from now on, where there is room. Answers what stood there before.
fn write_at(cells: &mut Cells, key: &Key, cell: Option<Cell>) -> Option<Cell>
    ensures before { result ≡ found cells.old key.now }
    ensures found { (q : RowKey) → found cells.new q ≡ cond (eq_by_cmp key_cmp key.now q && has cells.old q) cell (found cells.old q) }
    ensures has { (q : RowKey) → has cells.new q ≡ has cells.old q }
{
    match cells.get_mut(key) {
        Some(room) => mem::replace(room, cell),
        None => None,
    }
}

/// Takes out the rooms that are empty, at every key that a change names.
fn sweep(cells: &mut Cells, changes: &[Change])
    ensures found { (q : RowKey) → found cells.new q ≡ found cells.old q }
    ensures has { (q : RowKey) → has cells.new q ≡ cond (is_named changes.now q) (is_some (found cells.old q)) (has cells.old q) }
    ensures ordered { IsOrdered key_cmp cells.new }
{
    for change in changes {
        sweep_at(cells, change.key());
    }
    let _count = cells.len();
}

/// Takes out the rooms that are empty, at every key that a delete names.
fn sweep_deleted(cells: &mut Cells, changes: &[Change])
    ensures found { (q : RowKey) → found cells.new q ≡ found cells.old q }
    ensures has { (q : RowKey) → has cells.new q ≡ cond (is_deleted changes.now q) (is_some (found cells.old q)) (has cells.old q) }
    ensures ordered { IsOrdered key_cmp cells.new }
{
    for change in changes {
        sweep_if_deleted(cells, change);
    }
    let _count = cells.len();
}

/// Takes out the room at the key of a change if it is empty and the change is a delete.
fn sweep_if_deleted(cells: &mut Cells, change: &Change)
    ensures found { (q : RowKey) → found cells.new q ≡ found cells.old q }
    ensures has { (q : RowKey) → has cells.new q ≡ cond (deletes change.now q) (is_some (found cells.old q)) (has cells.old q) }
{
    if let Change::Delete(key) = change {
        sweep_at(cells, key);
    }
}

/// Takes out the room at a key if it is empty.
fn sweep_at(cells: &mut Cells, key: &Key)
    ensures found { (q : RowKey) → found cells.new q ≡ found cells.old q }
    ensures has { (q : RowKey) → has cells.new q ≡ cond (eq_by_cmp key_cmp key.now q) (is_some (found cells.old q)) (has cells.old q) }
{
    if is_empty_at(cells, key) {
        cells.remove(key);
    }
}

/// Whether there is an empty room at a key.
fn is_empty_at(cells: &Cells, key: &Key) -> bool
    ensures { result ≡ is_empty_room (get key_cmp cells.now key.now) }
{
    matches!(cells.get(key), Some(None))
}

impl Change {
    /// The key that the change names.
    pub fn key(&self) -> &Key
        ensures { result.now ≡ key_of self.now }
    {
        match self {
            Change::Put(row) => &row.key,
            Change::Delete(key) => key,
        }
    }
}
