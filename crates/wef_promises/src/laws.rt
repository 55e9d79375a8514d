//! What a schedule promises beside that its states are safe, as contracts.

ghost use Rattle.wef_promises.specs.Admitting.{GoodLinesAreAdmitted};
ghost use Rattle.wef_promises.specs.Drawing.{ReplyIdsRise, RequestIdsRise};
ghost use Rattle.wef_promises.specs.Laws.{AcknowledgementIsGiven, BookmarksNeverFall, DeliveriesAreAcknowledged, HeartbeatsAreAcknowledged, SubscriptionsStay};
ghost use Rattle.wef_promises.specs.Rising.{SessionsRise};

/// A well-formed batch for a live subscription that asks for an acknowledgement gets it, unless its
/// commit is arranged to fail; and so does a heartbeat.
pub fn acknowledgement()
    ensures batch { AcknowledgementIsGiven }
    ensures delivery { DeliveriesAreAcknowledged }
    ensures beat { HeartbeatsAreAcknowledged }
{}

/// Whatever a good schedule does, no end draws an id twice: the ids of each source's requests, and those
/// of the collector's replies and requests, rise in the order in which they were sent, over crashes too.
pub fn no_id_is_drawn_twice()
    ensures requests { RequestIdsRise }
    ensures replies { ReplyIdsRise }
{}

/// Each session begins where its offer, or the collector's own wish, says, which is the bookmark that was
/// kept when that was sent, and rises by acknowledged batches alone; and each batch that was sent lies above where its session
/// stood then.
pub fn sessions_rise()
    ensures { SessionsRise }
{}

/// Whatever a line does, each subscription that was added stays, and no bookmark falls.
pub fn nothing_is_forgotten()
    ensures subscriptions { SubscriptionsStay }
    ensures bookmarks { BookmarksNeverFall }
{}

/// The world admits each line of a schedule whose lines are good.
pub fn good_lines_are_admitted()
    ensures { GoodLinesAreAdmitted }
{}
