//! That every state of a good schedule is safe, as contracts.

ghost use Rattle.wef_safety.specs.Laws.{FittingRises, KeptIsSafe, SchedulesAreKept, SchedulesAreSafe, StartIsKept, StepsKeep};

/// A batch that fits what a source wrote above a bookmark fits above each greater one.
pub fn fitting_rises()
    ensures { FittingRises }
{}

/// What a world keeps from its start on, step by step, whatever it is delivered and in which order.
pub fn steps_keep()
    ensures start { StartIsKept }
    ensures steps { StepsKeep }
    ensures safe { KeptIsSafe }
{}

/// Whatever a good schedule does, what the collector holds of each declared source is, up to the
/// bookmark, just what the subscription selects of all that the source wrote, each record once and in
/// order, but for records that are marked as dropped; and only records that were overwritten or are
/// too large are marked; and every batch that was acknowledged lies within that bookmark (`safe`). So it
/// is because of what is kept all along (`kept`).
pub fn law_safe()
    ensures kept { SchedulesAreKept }
    ensures safe { SchedulesAreSafe }
{}
