//! Fronts and links, in memory and over loopback, by example; and a link that does what lines say.
#![tactic(auto)]

pub mod lines;
#[cfg(test)]
mod loopback;
#[cfg(test)]
mod memory;
#[cfg(test)]
mod steps;
