//! Laws of reading, each the contract of a function that does nothing.

ghost use Rattle.wef_tree_reading.specs.Documents.{IsSpelt};
ghost use Rattle.wef_tree_reading.specs.Laws.{GoesOnToTheFault, HasNoFault, HasOneFault, HasOneRoot, IsDecoded, IsLongest};

/// What bytes spell is one root, or they have one fault: never two of these.
pub fn reading_is_one()
    ensures root { HasOneRoot }
    ensures no_fault { HasNoFault }
    ensures charset { IsDecoded }
    ensures fault { HasOneFault }
    ensures spelt { IsSpelt }
{}

/// The fault is where the longest list of good pieces ends: each other one that begins the text is
/// a beginning of it.
pub fn faults_are_at_the_longest()
    ensures goes_on { GoesOnToTheFault }
    ensures longest { IsLongest }
{}
