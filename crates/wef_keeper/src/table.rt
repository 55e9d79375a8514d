//! The rows as one value: a finite map from keys to cells.

ghost use Rattle.std.specs.Prelude.{◌≡◌, ◌≤◌, ◌++◌, take, IfOk, OnOk, OnErr};
ghost use Rattle.std.specs.FinMap as finite;
ghost use Rattle.std.specs.Option.{option_copied};
ghost use Rattle.wef_keeper.specs.Rows.{applied, rows_after};
ghost use Rattle.wef_keeper.specs.Sections.{rows_under, last_key};

use crate::cells::{Cells, cell_at, change_all};
use crate::keys::{Cell, Change, Depth, Key, Row};
use crate::paging::first_rows;
use std::alloc::{AllocError, Global};
use std::collections::BTreeMap;
use std::marker::Model;
use wef_base::List;

/// Rows in the order of their keys.
#[derive(Drop)]
pub struct Rows {
    alloc: Global,
    cells: Cells,
}

impl Model for Rows {
    ghost use Rattle.std.specs.FinMap as finite;
    ghost use Rattle.wef_keeper.specs.Rows.{key_cmp};
    ghost use Rattle.wef_keeper.specs.declared.keys.Cell.{Cell};
    ghost use Rattle.wef_keeper.specs.contracts.keys.Key as key;
    ghost use Rattle.wef_keeper.specs.contracts.keys.Cell as cell;

    ghost Value = { finite.FinMap key_cmp Cell };

    ghost coded = { finite.code key.the_row.coded cell.the_row.coded };

    ghost use Rattle.wef_keeper.specs.Cells.{live, IsSettled};

    ghost view = { λ r. live r.cells.entries };

    ghost invariant = { λ r. IsSettled r.cells };
}

impl Rows {
    /// No rows. It takes no memory.
    pub fn new(alloc: Global) -> Rows
        ensures { result ≡ finite.empty }
    {
        let cells = BTreeMap::new(alloc);
        Rows { alloc, cells }
    }

    /// What stands at a key.
    pub fn get(&self, key: &Key) -> Option<&Cell>
        ensures { option_copied result ≡ finite.get self.now key.now }
    {
        cell_at(&self.cells, key)
    }

    /// The first `max` rows behind a key.
    pub fn page(&self, after: &Key, max: u32) -> Result<List<Row>, AllocError>
        requires { 1 ≤ max }
        ensures { IfOk result (λ page. page ≡ take max (rows_after after.now self.now)) }
    {
        let rows = first_rows(self.alloc, &self.cells, after, None, max)?;
        Ok(List::from(rows))
    }

    /// The first `max` rows behind a key that share its parts down to a depth. The rest of the
    /// section is the section behind the page's last row.
    pub fn section_page(&self, after: &Key, depth: Depth, max: u32) -> Result<List<Row>, AllocError>
        requires { 1 ≤ max }
        ensures page { IfOk result (λ page. page ≡ take max (rows_under depth after.now self.now)) }
        ensures rest { IfOk result (λ page. rows_under depth after.now self.now ≡ page ++ rows_under depth (last_key after.now page) self.now) }
    {
        let rows = first_rows(self.alloc, &self.cells, after, Some(depth), max)?;
        Ok(List::from(rows))
    }

    /// Applies all changes in order, or none. Each costs what its key costs to find; the rows that
    /// no change names aren't visited.
    pub fn apply(&mut self, changes: List<Change>) -> Result<(), AllocError>
        ensures ok { OnOk result (self.new ≡ applied changes self.old) }
        ensures err { OnErr result (self.new ≡ self.old) }
    {
        self.apply_shared(&changes)
    }

    /// Applies changes as `apply` does. What is put shares the texts of the changes.
    pub fn apply_shared(&mut self, changes: &List<Change>) -> Result<(), AllocError>
        ensures ok { OnOk result (self.new ≡ applied changes.now self.old) }
        ensures err { OnErr result (self.new ≡ self.old) }
    {
        change_all(self.alloc, &mut self.cells, changes.as_slice())
    }
}
