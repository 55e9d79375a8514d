//! What a schedule promises of its lines, as contracts.

ghost use Rattle.wef_replay.specs.Laws.{ScheduleEventsArePlain, ScheduleLinesAreGood};

/// Each line that a schedule gives is good after those before it, and each event of a batch is a plain
/// one.
pub fn schedule_lines_are_good()
    ensures good { ScheduleLinesAreGood }
    ensures plain { ScheduleEventsArePlain }
{}
