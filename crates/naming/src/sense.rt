//! No two records contradict each other.
ghost use Rattle.std.specs.Prelude.{◌≡◌, ℕ, true, false, nat_le};
ghost use Rattle.layout.specs.Choices.{given};
ghost use Rattle.layout.specs.Meaning.{automaton};
ghost use Rattle.layout.specs.Refusals.{answered};
ghost use Rattle.layout.specs.Opening.{enters as enters_of, action_makes_sense, acts as acts_of};
ghost use Rattle.layout.specs.Opening.{right_length, makes_sense_as, makes_sense, sense_found};
ghost use Rattle.sorted.specs.Contents.{sheet_in};
ghost use Rattle.naming.specs.Failing.{FirstFailing};

use layout::{Letter, Refusal};
use records::{NO_SYMBOL, Record};
use sorted::SortedSheet;
use syntax::Symbol;
use table::{ADDED, Action};

/// The symbol that enters a state.
fn incoming(sorted: &SortedSheet<'_>, s: u8) -> Option<Symbol>
    ensures { result ≡ (automaton (sheet_in sorted.now)).incoming s }
{
    sorted.find(Letter::S, s, 0, 0)?.incoming()
}

fn enters(sorted: &SortedSheet<'_>, symbol: Symbol, t: u8) -> bool
    ensures { result ≡ enters_of (sheet_in sorted.now) symbol t }
{
    incoming(sorted, t).is_some_and(|entering| entering == symbol)
}

/// No shift on END, accept on END alone, and a shift leads where its terminal enters.
fn action_fits(sorted: &SortedSheet<'_>, a: u8, action: Action) -> bool
    ensures { result ≡ action_makes_sense (sheet_in sorted.now) a action }
{
    match action {
        Action::Shift(t) => a != 0 && enters(sorted, Symbol::Terminal(a), t),
        Action::Accept => a == 0,
        Action::Reduce(_) | Action::Reject => true,
    }
}

/// State `s` has an action: where its first one would stand there is one.
fn acts(sorted: &SortedSheet<'_>, s: u8) -> bool
    ensures { result ≡ acts_of (sheet_in sorted.now) s }
{
    sorted
        .first_from(Letter::A, s, 0, 0)
        .is_some_and(|row| row.bytes[0] == b'A' && row.first() == s)
}

/// How many symbols a right side has.
fn length_of(sorted: &SortedSheet<'_>, p: u8) -> Option<u8>
    ensures { result ≡ right_length (sheet_in sorted.now) p }
{
    if p == ADDED {
        return Some(1);
    }
    sorted.find(Letter::P, p, 0, 0).map(|row| row.f2())
}

fn dot_fits(sorted: &SortedSheet<'_>, p: u8, dot: u8) -> bool
    ensures { result ≡ given false (nat_le dot) (right_length (sheet_in sorted.now) p) }
{
    length_of(sorted, p).is_some_and(|n| dot <= n)
}

fn has_sense_as(sorted: &SortedSheet<'_>, row: Record, letter: Letter) -> bool
    ensures { result ≡ makes_sense_as (sheet_in sorted.now) row.bytes letter }
{
    match letter {
        Letter::A => action_fits(sorted, row.second(), row.action()),
        Letter::D => !acts(sorted, row.first()),
        Letter::G => enters(sorted, Symbol::Nonterminal(row.second()), row.f1()),
        Letter::I => dot_fits(sorted, row.second(), row.third()),
        Letter::K => row.first() != 0,
        Letter::N | Letter::P => true,
        Letter::S => {
            if row.first() == 0 {
                row.f1() == NO_SYMBOL && row.f2() == 0
            } else {
                row.f1() != NO_SYMBOL
            }
        }
    }
}

fn has_sense(sorted: &SortedSheet<'_>, row: Record) -> bool
    ensures { result ≡ makes_sense (sheet_in sorted.now) row.bytes }
{
    // A match, since nothing is known of the call of a closure that holds the sheet.
    match row.letter() {
        None => false,
        Some(letter) => has_sense_as(sorted, row, letter),
    }
}

/// The first record that contradicts another, by its place.
fn first_contradiction(sorted: &SortedSheet<'_>) -> Option<usize>
    ensures { FirstFailing (sheet_in sorted.now) (makes_sense (sheet_in sorted.now)) result }
{
    sorted
        .rows()
        .iter()
        .position(|row| !has_sense(sorted, Record::from(*row)))
}

/// No two records contradict each other.
pub fn check_sense(sorted: &SortedSheet<'_>) -> Result<(), Refusal>
    ensures { result ≡ answered (sense_found (sheet_in sorted.now)) }
{
    match first_contradiction(sorted) {
        Some(i) => Err(Refusal::Contradiction { record: i as u32 }),
        None => Ok(()),
    }
}
