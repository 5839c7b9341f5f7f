//! Every thing that is named is there, without a gap.
ghost use Rattle.std.specs.Prelude.{◌≡◌, ℕ, true};
ghost use Rattle.layout.specs.Choices.{given, implies, every, below};
ghost use Rattle.layout.specs.Records.{sixteen, at, maybe_symbol, symbols, member as member_of};
ghost use Rattle.layout.specs.Refusals.{answered};
ghost use Rattle.layout.specs.Opening.{has_state, has_symbol, no_gap, names_known, names_fit};
ghost use Rattle.layout.specs.Opening.{has_kind, has_all_kinds, names_found};
ghost use Rattle.records.specs.Parts.{symbol_in};
ghost use Rattle.sorted.specs.Contents.{sheet_in};
ghost use Rattle.naming.specs.Failing.{FirstFailing};

use crate::known::{has, has_nonterminal, has_production, has_state, has_symbol, has_target};
use hinted::contains;
use layout::{Letter, Refusal};
use records::{Record, code};
use sorted::SortedSheet;
use table::ADDED;

fn has_symbol_at(sorted: &SortedSheet<'_>, row: Record, k: u8) -> bool
    ensures { result ≡ given true (has_symbol (sheet_in sorted.now)) (symbol_in row.bytes k) }
{
    // A match, since nothing is known of the call of a closure that holds the sheet.
    match row.symbol(k) {
        None => true,
        Some(symbol) => has_symbol(sorted, symbol),
    }
}

/// The symbols of a payload.
fn has_symbols(sorted: &SortedSheet<'_>, row: Record) -> bool
    ensures { result ≡ every (has_symbol (sheet_in sorted.now)) (symbols row.bytes (at row.bytes 5)) }
{
    (0..row.f2()).all(|k| has_symbol_at(sorted, row, k))
}

/// Every state of a set.
fn has_states(sorted: &SortedSheet<'_>, set: u64) -> bool
    ensures { result ≡ below 64 (λ s. implies (member_of sixteen set s) (has_state (sheet_in sorted.now) s)) }
{
    (0..64).all(|s| !contains(set, s) || has_state(sorted, s))
}

/// Numbers from 0 without a gap: the one before has its record too.
fn has_no_gap(sorted: &SortedSheet<'_>, row: Record, letter: Letter) -> bool
    ensures { result ≡ no_gap (sheet_in sorted.now) row.bytes letter }
{
    let n = row.first();
    match letter {
        Letter::A | Letter::D | Letter::G | Letter::I => true,
        Letter::K => row.second() == 0 || has(sorted, Letter::K, n, row.second() - 1),
        Letter::N => n == 0 || has_nonterminal(sorted, n - 1),
        Letter::P => n == 0 || has_production(sorted, n - 1),
        Letter::S => n == 0 || has_state(sorted, n - 1),
    }
}

fn enters_known(sorted: &SortedSheet<'_>, row: Record) -> bool
    ensures { result ≡ given true (has_symbol (sheet_in sorted.now)) (maybe_symbol (at row.bytes 4)) }
{
    // A match, since nothing is known of the call of a closure that holds the sheet.
    match row.incoming() {
        None => true,
        Some(symbol) => has_symbol(sorted, symbol),
    }
}

/// What a record names has its own record.
fn knows_names(sorted: &SortedSheet<'_>, row: Record, letter: Letter) -> bool
    ensures { result ≡ names_known (sheet_in sorted.now) row.bytes letter }
{
    let n = row.first();
    match letter {
        Letter::A => has_state(sorted, n) && has_target(sorted, row.action()),
        Letter::D => has_state(sorted, n) && has_production(sorted, row.f1()),
        Letter::G => {
            has_state(sorted, n)
                && (has_nonterminal(sorted, row.second()) && has_state(sorted, row.f1()))
        }
        Letter::I => {
            has_state(sorted, n) && (row.second() == ADDED || has_production(sorted, row.second()))
        }
        Letter::K => has_state(sorted, n) && has_states(sorted, row.payload()),
        Letter::N => true,
        Letter::P => has_nonterminal(sorted, row.f1()) && has_symbols(sorted, row),
        Letter::S => enters_known(sorted, row) && has_symbols(sorted, row),
    }
}

fn fits_names(sorted: &SortedSheet<'_>, row: Record) -> bool
    ensures { result ≡ names_fit (sheet_in sorted.now) row.bytes }
{
    // A match, since nothing is known of the call of a closure that holds the sheet.
    match row.letter() {
        None => false,
        Some(letter) => has_no_gap(sorted, row, letter) && knows_names(sorted, row, letter),
    }
}

fn has_kind(sorted: &SortedSheet<'_>, letter: Letter) -> bool
    ensures { result ≡ has_kind (sheet_in sorted.now) letter }
{
    sorted.rows().iter().any(|row| row[0] == code(letter))
}

fn has_all_kinds(sorted: &SortedSheet<'_>) -> bool
    ensures { result ≡ has_all_kinds (sheet_in sorted.now) }
{
    has_kind(sorted, Letter::P) && (has_kind(sorted, Letter::S) && has_kind(sorted, Letter::N))
}

/// The first record of which something is not there, by its place.
fn first_unfit(sorted: &SortedSheet<'_>) -> Option<usize>
    ensures { FirstFailing (sheet_in sorted.now) (names_fit (sheet_in sorted.now)) result }
{
    sorted
        .rows()
        .iter()
        .position(|row| !fits_names(sorted, Record::from(*row)))
}

/// Every named thing has its record, numbers have no gap, and there is a production, a state and a nonterminal.
pub fn check_names(sorted: &SortedSheet<'_>) -> Result<(), Refusal>
    ensures { result ≡ answered (names_found (sheet_in sorted.now)) }
{
    match first_unfit(sorted) {
        Some(i) => Err(Refusal::Absent { record: i as u32 }),
        None if has_all_kinds(sorted) => Ok(()),
        None => Err(Refusal::Absent {
            record: sorted.records() as u32,
        }),
    }
}
