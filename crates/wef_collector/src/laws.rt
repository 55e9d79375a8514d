//! Laws of taking batches, of listing, and of rows of their form, as contracts.

ghost use Rattle.wef_collector.specs.FormsStay.{FormsStay};
ghost use Rattle.wef_collector.specs.Laws.{BookmarkMoves, BookmarkNeverFalls, EventsAreHeld, OthersStay};
ghost use Rattle.wef_collector.specs.There.{ListedAreThere, OwnKeysStay};
ghost use Rattle.wef_collector.specs.Whole.{SkipsNothing};

/// What any run of batches of a subscription and source leaves: by number, the events that stood above the bookmark when their batch came; a bookmark at the greatest reach, and none
/// that fell; and the rows of all other subscriptions and sources as they were.
pub fn batches_in_order()
    ensures events { EventsAreHeld }
    ensures bookmark { BookmarkMoves }
    ensures never_falls { BookmarkNeverFalls }
    ensures others { OthersStay }
{}

/// Each subscription that is listed is the one that its name leads to, live or ended as listed,
/// where each row of a subscription stands at the key of a name that reads back as itself. And so
/// they stand, whatever the collector does.
pub fn listed_are_there()
    ensures there { ListedAreThere }
    ensures own_keys { OwnKeysStay }
{}

/// Rows that are all of their form stay so, whatever the collector does: where there is none, over
/// a start, where a subscription is added or ends, over a batch that is taken, and where a source is
/// heard.
pub fn forms_stay()
    ensures { FormsStay }
{}

/// Where the rows that a call reads are of their form, it passes none of them over: each row of a
/// subscription is listed, each bookmark row is in the bookmark, and a name whose row stands is known.
pub fn nothing_is_skipped()
    ensures { SkipsNothing }
{}
