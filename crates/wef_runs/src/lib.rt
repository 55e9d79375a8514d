//! What is proved of runs of the commands over one store: of any of a collector's, ended or killed, of what
//! `write` makes of a source's history, and of what `forward` sends of it.
#![tactic(auto)]

pub mod laws;
