//! Laws of batches as elements of a message, each the contract of a function that does nothing.

ghost use Rattle.wef_batch.specs.Envelopes.{CostsAreOfTexts, RoomsAreOfBytes};
ghost use Rattle.wef_batch.specs.Laws.{ReadItemsAreSound, WrittenIsGood, WrittenIsRead};

/// What is written for a batch is read as it, and is a good tree. To be read its events must be those
/// that their texts say, and its ranges must begin at 1 or above.
pub fn written_is_read_again()
    ensures says { WrittenIsRead }
    ensures good { WrittenIsGood }
{}

/// An item costs the bytes that its element has in UTF-8 as a part of a written envelope.
pub fn costs_are_of_texts()
    ensures { CostsAreOfTexts }
{}

/// A room that the costs of items keep is one of bytes, and where they pass it, so do the bytes.
pub fn rooms_are_of_bytes()
    ensures { RoomsAreOfBytes }
{}

/// The items of a batch that was read have numbers of records: ranges from 1 on in order, and counts
/// that can be kept.
pub fn read_items_are_sound()
    ensures { ReadItemsAreSound }
{}
