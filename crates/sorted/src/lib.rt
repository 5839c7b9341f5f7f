//! Sheets whose records are in range and in key order, so that a record is found by its key.
#![tactic(auto)]

mod held;
mod lookup;
mod ordered;
mod practice;
mod rows;
mod sorting;

pub use held::SortedSheet;
