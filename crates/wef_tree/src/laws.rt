//! Laws of reading and writing, each the contract of a function that does nothing.

ghost use Rattle.wef_tree.specs.Laws.{HasOneTree, ReadsBack};
ghost use Rattle.wef_tree.specs.Loose.{GivesLoose, IsOneOfThem, ReadsLoose};

pub use wef_tree_reading::laws::{faults_are_at_the_longest, reading_is_one};

/// What is written for a good tree is read as this tree, in both charsets. So a tree has one text,
/// and a text is that of one tree.
pub fn written_is_read_again()
    ensures reads_back { ReadsBack }
    ensures one_tree { HasOneTree }
{}

/// A loose text of a good tree, in which elements without children may stand as one tag, is read as
/// this tree too. The one text of the tree is among them.
#[tactic(auto, using(crate::proofs::LooseTexts::canonical_is_loose, crate::proofs::LooseTexts::loose_spells))]
pub fn loose_texts_are_read()
    ensures spells { ReadsLoose }
    ensures gives { GivesLoose }
    ensures one_text { IsOneOfThem }
{}
