//! The conditions on a raw sheet, record by record.
ghost use Rattle.std.specs.Prelude.{◌≡◌, ℕ};
ghost use Rattle.layout.specs.Refusals.{answered};
ghost use Rattle.layout.specs.Opening.{by_letter};
ghost use Rattle.layout.specs.Checking.{safe_as, complete_as};
ghost use Rattle.naming.specs.Failing.{FirstFailing};
ghost use Rattle.sheet.specs.Contents.{sheet_in};
ghost use Rattle.checker.specs.Judged.{unsafe_found, incomplete_found};

use completeness::{equations_hold, initial_item_is_there, item_is_complete};
use layout::{Letter, Refusal};
use records::Record;
use safety::{action_is_safe, edge_is_safe, reduce_is_safe};
use sheet::RawSheet;
use table::Table;

/// An action, a default reduction and a goto are tested for safety.
fn is_safe(raw: &RawSheet<'_>, row: Record) -> bool
    ensures { result ≡ by_letter row.bytes (safe_as (sheet_in raw.now) row.bytes) }
{
    match row.letter() {
        None => false,
        Some(Letter::A) => action_is_safe(raw, row.first(), row.action()),
        Some(Letter::D) => reduce_is_safe(raw, row.first(), row.f1()),
        Some(Letter::G) => edge_is_safe(raw, row.first(), row.f1()),
        Some(Letter::I | Letter::K | Letter::N | Letter::P | Letter::S) => true,
    }
}

/// An item and a nonterminal are tested for completeness.
fn is_complete(raw: &RawSheet<'_>, row: Record) -> bool
    ensures { result ≡ by_letter row.bytes (complete_as (sheet_in raw.now) row.bytes) }
{
    match row.letter() {
        None => false,
        Some(Letter::I) => item_is_complete(raw, row.first(), row.second(), row.third()),
        Some(Letter::N) => equations_hold(raw, row.first()),
        Some(Letter::A | Letter::D | Letter::G | Letter::K | Letter::P | Letter::S) => true,
    }
}

/// The first record that is not safe, by its place.
fn first_unsafe(raw: &RawSheet<'_>) -> Option<usize>
    ensures { FirstFailing (sheet_in raw.now) (λ row. by_letter row (safe_as (sheet_in raw.now) row)) result }
{
    raw.rows()
        .iter()
        .position(|row| !is_safe(raw, Record::from(*row)))
}

/// The first record that is not complete, by its place.
fn first_incomplete(raw: &RawSheet<'_>) -> Option<usize>
    ensures { FirstFailing (sheet_in raw.now) (λ row. by_letter row (complete_as (sheet_in raw.now) row)) result }
{
    raw.rows()
        .iter()
        .position(|row| !is_complete(raw, Record::from(*row)))
}

pub(crate) fn check_safety(raw: &RawSheet<'_>) -> Result<(), Refusal>
    ensures { result ≡ answered (unsafe_found (sheet_in raw.now)) }
{
    match first_unsafe(raw) {
        Some(i) => Err(Refusal::Unsafe { record: i as u32 }),
        None => Ok(()),
    }
}

/// Behind the last record, the item by which a reading begins.
pub(crate) fn check_completeness(raw: &RawSheet<'_>) -> Result<(), Refusal>
    ensures { result ≡ answered (incomplete_found (sheet_in raw.now)) }
{
    match first_incomplete(raw) {
        Some(i) => Err(Refusal::Incomplete { record: i as u32 }),
        None if initial_item_is_there(raw) => Ok(()),
        None => Err(Refusal::Incomplete {
            record: raw.records() as u32,
        }),
    }
}
