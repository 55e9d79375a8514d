//! Laws of a Subscribe, each the contract of a function that does nothing.

ghost use Rattle.wef_subscribes.specs.Laws.{WrittenIsGood, WrittenIsRead};

/// What is written for a wish is read as this wish, and is a good tree. To be read, its texts must be
/// without spaces at both ends, its addresses lead to subscriptions, its queries be such as can be
/// read, and its limits be within their bounds. For the tree to be good, its texts must hold
/// characters that XML allows.
pub fn written_is_read_again()
    ensures says { WrittenIsRead }
    ensures good { WrittenIsGood }
{}
