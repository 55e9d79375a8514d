//! Laws of events, each the contract of a function that does nothing.

ghost use Rattle.wef_event.specs.Numbering.{NumberedEventsAreRead};
ghost use Rattle.wef_event.specs.PlainEvent.{PlainEventsAreOfTrees, PlainEventsAreRead};
ghost use Rattle.wef_event.specs.Unnumbered.{NewEventsAreNumbered, NewEventsFit};

/// A plain event is the event of its tree, and with a number it is the one that its text says.
pub fn plain_events_are_read()
    ensures of_trees { PlainEventsAreOfTrees }
    ensures read { PlainEventsAreRead }
{}

/// A new event with a number is the plain event of this number, and it is no longer than that.
pub fn new_events_are_plain()
    ensures numbered { NewEventsAreNumbered }
    ensures fit { NewEventsFit }
{}

/// An event with a number is the one that its text says.
pub fn numbered_events_are_read()
    ensures { NumberedEventsAreRead }
{}
