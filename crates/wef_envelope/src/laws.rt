//! Laws of envelopes, each the contract of a function that does nothing.

ghost use Rattle.wef_envelope.specs.Faults.{FaultsAreGood, FaultsAreRead};
ghost use Rattle.wef_envelope.specs.Laws.{WrittenIsGood, WrittenIsRead};
ghost use Rattle.wef_envelope.specs.Spaces.{HavePrefixes};

/// The nine prefixes that a written message declares stand for the namespaces of `spaces`.
pub fn namespaces_have_prefixes()
    ensures { HavePrefixes }
{}

/// What is written for an envelope is a good tree and says this envelope. Its texts must be
/// without spaces at both ends, its ids those of their texts and its bookmark a header Bookmark; and
/// for the tree to be good, its texts must hold characters that XML allows, and its elements must
/// not go too deep.
pub fn written_is_read_again()
    ensures says { WrittenIsRead }
    ensures good { WrittenIsGood }
{}

/// What is written for a fault of the table is a good tree, and is read as this fault.
pub fn faults_are_read_again()
    ensures read { FaultsAreRead }
    ensures good { FaultsAreGood }
{}
