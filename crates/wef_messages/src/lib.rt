//! Messages as a world keeps them: each is its bytes, seen as what they say.
#![tactic(auto)]

pub mod messages;
