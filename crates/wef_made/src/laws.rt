//! What is promised of made schedules, as contracts.

ghost use Rattle.wef_made.specs.Laws.{MadeSchedulesAreGood};

/// Each line of a made schedule is good after those before it.
pub fn made_schedules_are_good()
    ensures { MadeSchedulesAreGood }
{}
