//! What commands do by the rows that stood before them, as contracts.

ghost use Rattle.wef_commands.specs.Laws.{AddLeaves, AddsByRows, EventsByRows, ListsByRows, ReadersLeave, RemoveLeaves, RemovesByRows, ShowsByRows, StatusesByRows, WriteLeaves, WritesAsFar, WritesByRows};

/// Where the rows before and behind a run are told: `exists` and `too many` are told exactly by the
/// rows, and once `add` is done the subscription of the document stands live. `unknown` and `already`
/// are told exactly by the rows, and once `remove` is done the subscription has ended. All other rows
/// are as they were, but for the boot number.
pub fn changes_are_by_rows()
    ensures add { AddsByRows }
    ensures remove { RemovesByRows }
{}

/// What `list`, `show`, `events` and `status` write is the text of the rows, of `status` also by the
/// moment, and the rows stay but for the boot number.
pub fn texts_are_of_rows()
    ensures list { ListsByRows }
    ensures show { ShowsByRows }
    ensures events { EventsByRows }
    ensures status { StatusesByRows }
{}

/// Where `write` is done, each line of its input is the next record of its channel, over the log as its
/// start left it, and the number that is printed of it is its channel's last one plus one.
pub fn numbers_follow_the_rows()
    ensures { WritesByRows }
{}

/// Whatever the ending of `write`: of the events of its input the first so many were written over the
/// log as its start left it, and exactly their lines are printed, each with the number that its channel
/// had next; at most one event more was written, whose line isn't printed, or not whole. `full` and a
/// line whose text is too long with its number come exactly by the rows.
pub fn numbers_told_are_written()
    ensures { WritesAsFar }
{}

/// Whatever the ending, also where the store failed or memory was wanting: any rows that an opening may
/// find behind a run are those before it, or those of the start, or these with the one change of `add`
/// or `remove`, whole, or with the first so many events of `write`.
pub fn no_run_does_more()
    ensures add { AddLeaves }
    ensures remove { RemoveLeaves }
    ensures readers { ReadersLeave }
    ensures write { WriteLeaves }
{}
