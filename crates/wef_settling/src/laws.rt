//! What is so of settling, as contracts.

ghost use Rattle.wef_settling.specs.Laws.{ListedAreDeclared, SchedulesSettle, SchedulesShowAll, SettledIsComplete, SettlingEnds, SettlingIsKept, SettlingIsSettled};

/// Settling keeps all that a step of a schedule keeps, whatever is armed; and each turn of it that goes
/// on leaves less to be done, so it ends.
pub fn settling_goes_on()
    ensures kept { SettlingIsKept }
    ensures ends { SettlingEnds }
{}

/// In every state of a good schedule each source that a subscription lists is declared.
pub fn listed_are_declared()
    ensures { ListedAreDeclared }
{}

/// Behind settling each record that lies above a bookmark stands in its source's window and isn't
/// wanted, where nothing was armed, and ids and boot numbers are left (`settled`); so it is behind each
/// state of a good schedule (`schedules`).
pub fn law_settled()
    ensures settled { SettlingIsSettled }
    ensures schedules { SchedulesSettle }
{}

/// In a world that is safe and settled nothing is missing: each record that a live subscription selects,
/// of each source by which it is to be served, is held or lies under a mark.
pub fn settled_is_complete()
    ensures { SettledIsComplete }
{}

/// Where a schedule settles, with nothing armed and ids and boot numbers left behind it, the `show` behind
/// it reports rows in which nothing is missing.
pub fn schedules_show_all()
    ensures { SchedulesShowAll }
{}
