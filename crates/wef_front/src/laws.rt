//! Laws of answers, each the contract of a function that does nothing.

ghost use Rattle.wef_front.specs.Beats.{BeatsAreHeard, BeatsAreRead};
ghost use Rattle.wef_front.specs.Ends.{EndsAreHeard, EndsAreRead};
ghost use Rattle.wef_front.specs.Laws.{AnswersAreReplies, AnswersGoByPlan, DrawnIdsAreSpelt, InternalErrorsHaveACause, OffersAreHeard, OffersAreRead, OneIsHeard, RepliesAreHeard, RepliesAreRead};
ghost use Rattle.wef_front.specs.Requests.{InternalErrorsWantIds, OneRequestIsHeard};
ghost use Rattle.wef_front.specs.Sent.{DeliveriesAreHeard, DeliveriesAreRead, EnumeratesAreHeard, EnumeratesAreRead};

/// The collector answers what the rows that it finds give, and leaves what they give, unless its store
/// fails. No answer takes more than one commit, and one that changes nothing takes none.
pub fn answers_are_replies()
    ensures rows { AnswersAreReplies }
    ensures plan { AnswersGoByPlan }
{}

/// The collector says `InternalError` only where its store failed.
pub fn internal_errors_have_a_cause()
    ensures { InternalErrorsHaveACause }
{}

/// What the collector says to a source, the source hears: an acknowledgement, and each fault that has a
/// name of the table, as the answer to the message that it relates to.
pub fn replies_are_heard()
    ensures { RepliesAreHeard }
{}

/// What is written for a reply, under whatever id, is read again as that reply to that message; and its
/// id is found.
pub fn replies_are_read()
    ensures { RepliesAreRead }
{}

/// What a source sends, the collector hears: the batch for the subscription and the source of the path,
/// with its id.
pub fn deliveries_are_heard()
    ensures { DeliveriesAreHeard }
{}

/// What a source asks for its subscriptions with, the collector hears: the wish of this source, and its
/// id.
pub fn enumerates_are_heard()
    ensures { EnumeratesAreHeard }
{}

/// What is written for a wish for subscriptions is read again as that wish.
pub fn enumerates_are_read()
    ensures { EnumeratesAreRead }
{}

/// What the collector offers, the source hears, where it can be written and read again: these offers, as
/// the answer to its message.
pub fn offers_are_heard()
    ensures { OffersAreHeard }
{}

/// What is written for offers, under whatever id, is read again as the answer with these offers to that
/// message; and its id is found. The ids of the envelopes in them follow from that id.
pub fn offers_are_read()
    ensures { OffersAreRead }
{}

/// What is written for a delivery is read again as that delivery, where it came to the address that it
/// goes to.
pub fn deliveries_are_read()
    ensures { DeliveriesAreRead }
{}

/// What a source sends where it has nothing to send, the collector hears: that the source of the path is
/// there, for the subscription of the path, and its id.
pub fn beats_are_heard()
    ensures { BeatsAreHeard }
{}

/// What is written for a heartbeat is read again as that heartbeat, where it came to the address that it
/// goes to.
pub fn beats_are_read()
    ensures { BeatsAreRead }
{}

/// The collector hears no two things in the same bytes.
pub fn one_is_heard()
    ensures { OneIsHeard }
{}

/// An id that an end draws is that of its text, which can be written.
pub fn drawn_ids_are_spelt()
    ensures { DrawnIdsAreSpelt }
{}

/// What a source sends of the end of a session, the collector hears: the end of the subscription and the source
/// of the path, by the identifier of the session, and its id. So it does where the note goes to the address that
/// a collector wishes for.
pub fn ends_are_heard()
    ensures { EndsAreHeard }
{}

/// What a source sends of the end of a session, a collector reads as it was meant: the id, where it goes, which
/// session it is about, and why it ended. So it is with all that `shut` gives.
pub fn ends_are_read()
    ensures { EndsAreRead }
{}

/// A source hears no two things in the same bytes at a moment.
pub fn one_request_is_heard()
    ensures { OneRequestIsHeard }
{}

/// A source says `InternalError` only where it can't draw all the ids that an answer takes.
pub fn internal_errors_want_ids()
    ensures { InternalErrorsWantIds }
{}
