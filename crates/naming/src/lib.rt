//! The passes over the records of a sorted sheet with each other: absent things, gaps, contradictions.
#![tactic(auto)]

mod known;
mod names;
mod sense;

pub use names::check_names;
pub use sense::check_sense;
