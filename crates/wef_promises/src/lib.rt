//! What schedules promise beside that their states are safe: which lines they admit, how ids are drawn,
//! where sessions stand, what lasts, and what is acknowledged.
#![tactic(auto)]

pub mod laws;
