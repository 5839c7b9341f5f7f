//! Raw sheets: bytes in which opening finds nothing, asked as a table and for its hints.
#![tactic(auto)]

mod as_table;
mod hints;
mod numbered;
mod opening;
mod raw;

pub use raw::RawSheet;
