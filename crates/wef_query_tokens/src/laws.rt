//! The law of reading tokens, the contract of a function that does nothing.

ghost use Rattle.wef_query_tokens.specs.Laws.{IsTokenByToken};

/// The tokens of a text follow each other: each is read from what the one before left.
pub fn tokens_follow_each_other()
    ensures { IsTokenByToken }
{}
