//! What was seen of a table: for contracts alone. It copies no row, and takes a byte for each `Option`.

ghost use Rattle.std.specs.Prelude.{◌≡◌};
ghost use Rattle.std.specs.declared.option.Option.TheVariants.{Some, None};

use crate::opening::Opens;
use crate::table::Table;
use std::marker::Model;
use std::snapshot::Snapshot;
use wef_base::List;
use wef_keeper::Change;

/// What was seen of a table since it was opened.
///
/// A connection that failed no longer shows which rows stood, and what may stand now is these rows or
/// those with the changes of the commit that failed. So what was seen is kept beside it.
#[derive(Drop)]
pub struct Seen<S: Opens> {
    opened: Snapshot<Table<S>>,
    last: Snapshot<Table<S>>,
    failed: Option<Snapshot<List<Change>>>,
}

impl<S: Opens> Model for Seen<S> {
    ghost use Rattle.std.specs.Option.{option_map};
    ghost use Rattle.wef_sqlite.specs.Seeing.{Seeing, seeing_code};

    ghost Value = { Seeing S };

    ghost coded = { seeing_code S.code };

    ghost view = { λ s. record { opened = s.opened.value; last = s.last.value; failed = option_map (λ f. f.value) s.failed } };
}

impl<S: Opens> Seen<S> {
    /// A table as it was opened.
    pub fn of(table: &Table<S>) -> Seen<S>
        ensures { result ≡ record { opened = table.now; last = table.now; failed = None } }
    {
        Seen {
            opened: Snapshot::of(table),
            last: Snapshot::of(table),
            failed: None,
        }
    }

    /// A commit is done.
    pub fn commit_done(&mut self, table: &Table<S>)
        ensures { self.new ≡ record self.old { last = table.now; failed = None } }
    {
        self.last = Snapshot::of(table);
        self.failed = None;
    }

    /// A commit failed.
    pub fn commit_failed(&mut self, changes: &List<Change>)
        ensures { self.new ≡ record self.old { failed = Some changes.now } }
    {
        self.failed = Some(Snapshot::of(changes));
    }
}
