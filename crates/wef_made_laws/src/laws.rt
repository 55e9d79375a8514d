//! What is so of the worlds that made schedules leave, as contracts.

ghost use Rattle.wef_made_laws.specs.Laws.{NothingIsMissing};

/// Behind a made schedule, where ids and boot numbers are left, nothing is missing: as many records were
/// written as events are held and numbers are marked as dropped.
pub fn nothing_is_missing()
    ensures { NothingIsMissing }
{}
