//! Laws of subscription documents, each the contract of a function that does nothing.

ghost use Rattle.wef_documents.specs.Laws.{WrittenIsGood, WrittenIsRead};

/// What is written for a subscription is read as this subscription, and is a good tree. To be read,
/// its queries must be such as can be read, its numbers within their limits, and its sources those of
/// their addresses. For the tree to be good, its texts must hold characters that XML allows.
pub fn written_is_read_again()
    ensures says { WrittenIsRead }
    ensures good { WrittenIsGood }
{}
