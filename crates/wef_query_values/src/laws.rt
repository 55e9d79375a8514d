//! Laws of operators, of what texts say and of paths, each the contract of a function that does
//! nothing.

ghost use Rattle.wef_query_values.specs.Laws.{AnyGives, InstantsAreRead, MirroredHold, NumbersArePlaces};

/// An operator holds where the mirrored one does with the sides exchanged.
pub fn mirrored_hold()
    ensures { MirroredHold }
{}

/// The instant that a text compares as is the one that `wef_times::read_instant` reads from it.
pub fn instants_are_read()
    ensures { InstantsAreRead }
{}

/// The path `*` gives a node of each event.
#[tactic(auto, using(crate::proofs::AnyPath::any_gives))]
pub fn any_path_gives()
    ensures { AnyGives }
{}

/// A predicate that is a number alone is `position() =` that number (XPath 1.0, 2.4).
#[tactic(auto, using(crate::proofs::AnyPath::numbers_are_places))]
pub fn numbers_are_places()
    ensures { NumbersArePlaces }
{}
