//! Checked sheets: bytes of which no condition is refused. The checker opens a sheet, tests the safety conditions record
//! by record, and then the completeness conditions.
#![tactic(auto)]

mod as_table;
mod checked;
mod checking;
mod conditions;

pub use checked::CheckedSheet;
pub use checking::verdict;
