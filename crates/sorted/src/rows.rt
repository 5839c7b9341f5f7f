//! The records in the bytes of a sheet, as rows of bytes.
ghost use Rattle.std.specs.Prelude.{◌≡◌, ℕ, length, slice_index, slice_get, option_map};
ghost use Rattle.layout.specs.Records.{sheet, count as count_of, key as key_of_row};
ghost use Rattle.sorted.specs.Contents.{rows_in};
ghost use Rattle.sorted.specs.Found.{record_of};

use records::{Record, WIDTH, key_of};

pub(crate) fn rows_of(bytes: &[u8]) -> &[[u8; WIDTH]]
    ensures rows { result.now ≡ rows_in (sheet bytes.now) }
    ensures count { length result.now ≡ count_of (sheet bytes.now) }
{
    bytes.as_chunks().0
}

/// The key of a row, which a look-up reads without the rest.
#[tactic(auto, unfolding(layout::specs::Records::key))]
pub(crate) fn key_in(row: &[u8; WIDTH]) -> u32
    ensures { result ≡ key_of_row row.now }
{
    key_of(row[0], row[1], row[2], row[3])
}

/// The record in row `i`, if there are so many.
pub(crate) fn record_at(rows: &[[u8; WIDTH]], i: usize) -> Option<Record>
    ensures { result ≡ option_map record_of (slice_get rows.now i) }
{
    rows.get(i).map(|row| Record::from(*row))
}
