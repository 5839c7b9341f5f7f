//! The reading: a table's machine, from a token source into a sink, made and asked call by call.
#![tactic(auto)]

mod calls;
mod state;
mod steps;

pub use state::Reading;

/// How many cells a reading has.
pub(crate) const CELLS: usize = 128;

/// How many steps a reading makes at most.
pub(crate) const MOST_STEPS: u64 = 1_000_000_000_000;
