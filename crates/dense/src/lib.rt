//! Dense tables: each question is a bounds test and an index into constant rows, and one computed test of all rows says
//! that the table is lawful, or valid.
#![tactic(auto)]

ghost use Rattle.std.specs.Prelude.{◌≡◌, slice_index_or};
ghost use Rattle.table.specs.Automaton.{nth};
ghost use Rattle.dense.specs.Rows.{cell};
ghost use Rattle.dense.specs.Theorems.{TestedIsLawful, TestedIsValid};

mod rows;

pub use rows::{Dense, DenseRows, ValidRows};

/// What stands in a row at `k`, if anything does.
pub fn entry<T: Copy>(row: &[T], k: u8) -> Option<T>
    ensures { result ≡ nth row.now k }
{
    row.get(k as usize).copied()
}

/// What stands in a row at `k`, and `beyond` it that.
pub fn entry_or<T: Copy>(row: &[T], k: u8, beyond: T) -> T
    ensures { result ≡ slice_index_or row.now k beyond }
{
    row.get(k as usize).copied().unwrap_or(beyond)
}

/// What stands in row `i` at `k`, and `beyond` the rows that.
pub fn cell_or<T: Copy, const WIDTH: usize>(rows: &[[T; WIDTH]], i: u8, k: u8, beyond: T) -> T
    ensures { result ≡ cell rows.now beyond i k }
{
    match rows.get(i as usize) {
        Some(row) => entry_or(row, k, beyond),
        None => beyond,
    }
}

/// Rows that pass the test of their law hold a lawful table.
pub fn tested_is_lawful()
    ensures { TestedIsLawful }
{}

/// Rows that pass all tests together with hints hold a valid table.
pub fn tested_is_valid()
    ensures { TestedIsValid }
{}
