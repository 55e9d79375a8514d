//! A law of what sources do, as a contract.

ghost use Rattle.wef_source.specs.Laws.{HeardBeatsMoveNothing};

/// The acknowledgement of a heartbeat moves nothing.
pub fn heard_beats_move_nothing()
    ensures { HeardBeatsMoveNothing }
{}
