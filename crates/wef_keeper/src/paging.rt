//! A page of the tree: the first rows behind a key.

ghost use Rattle.std.specs.Prelude.{◌≡◌, take, IfOk};
ghost use Rattle.std.specs.BTreeMap.Range.{entries_between};
ghost use Rattle.std.specs.declared.ops.Bound.TheVariants.{Excluded, Unbounded};
ghost use Rattle.wef_keeper.specs.Cells.{standing};
ghost use Rattle.wef_keeper.specs.Rows.{key_cmp, row_of};
ghost use Rattle.wef_keeper.specs.Sections.{is_wanted, front};

use crate::cells::Cells;
use crate::keys::{Cell, Depth, Key, Row};
use std::alloc::{AllocError, Global};
use std::ops::Bound;

/// The first `max` rows behind a key, or fewer where one comes before that isn't wanted.
pub(crate) fn first_rows(
    alloc: Global,
    cells: &Cells,
    after: &Key,
    depth: Option<Depth>,
    max: u32,
) -> Result<Vec<Row>, AllocError>
    ensures { IfOk result (λ rows. rows.items ≡ take max (standing (front (λ key. is_wanted depth after.now key) (entries_between key_cmp (Excluded after.now) Unbounded cells.now.entries)))) }
{
    let mut rows = Vec::new(alloc);
    for (key, cell) in cells.range((Bound::Excluded(after), Bound::Unbounded)) {
        if rows.len() == max as usize || !is_wanted(depth, after, key) {
            break;
        }
        if let Some(cell) = cell {
            rows.push(row_at(key, cell)?)?;
        }
    }
    Ok(rows)
}

/// Whether a section has a key. No depth wants every key.
fn is_wanted(depth: Option<Depth>, after: &Key, key: &Key) -> bool
    ensures { result ≡ is_wanted depth after.now key.now }
{
    match depth {
        Some(depth) => depth.is_shared(after, key),
        None => true,
    }
}

/// A copy of the row that stands at a key.
pub(crate) fn row_at(key: &Key, cell: &Cell) -> Result<Row, AllocError>
    ensures { IfOk result (λ row. row ≡ row_of (key.now, cell.now)) }
{
    Ok(Row {
        key: key.clone()?,
        value: cell.value,
        body: cell.body.clone()?,
    })
}
