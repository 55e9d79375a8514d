//! Laws of reading a path, each the contract of a function that does nothing.

ghost use Rattle.wef_query_paths.specs.Laws.{HasNoFault, HasOneFault, HasPathOrFault, IsAllowedInFront, IsOnlyOne, IsSaid, IsSameGrammar};

/// The path that is read is the one that the text says by the grammar: its tokens are that path and
/// nothing more, and never open more than 32 brackets at once.
pub fn what_is_said_is_read()
    ensures { IsSaid }
{}

/// One list of tokens has one tree.
pub fn one_tree_is_said()
    ensures { IsOnlyOne }
{}

/// The grammar by which tokens allow a continuation is, where nothing is cut, the one with trees.
pub fn tokens_of_a_path()
    ensures { IsSameGrammar }
{}

/// What a path begins with allows a continuation.
pub fn fronts_of_a_path_allow()
    ensures { IsAllowedInFront }
{}

/// A text says a path, or has a fault.
pub fn texts_have_paths_or_faults()
    ensures { HasPathOrFault }
{}

/// A text has no two faults.
pub fn texts_have_one_fault()
    ensures { HasOneFault }
{}

/// A text that says a path has no fault.
pub fn paths_have_no_fault()
    ensures { HasNoFault }
{}
