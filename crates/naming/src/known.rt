//! What a sorted sheet has a record for.
ghost use Rattle.std.specs.Prelude.{◌≡◌, ℕ};
ghost use Rattle.layout.specs.Choices.{present};
ghost use Rattle.layout.specs.Meaning.{placed};
ghost use Rattle.layout.specs.Opening.{has_state, has_production, has_nonterminal, has_symbol, has_target};
ghost use Rattle.sorted.specs.Contents.{sheet_in};

use layout::Letter;
use sorted::SortedSheet;
use syntax::Symbol;
use table::Action;

pub(crate) fn has(sorted: &SortedSheet<'_>, letter: Letter, a: u8, b: u8) -> bool
    ensures { result ≡ present (placed (sheet_in sorted.now) letter a b 0) }
{
    sorted.find(letter, a, b, 0).is_some()
}

pub(crate) fn has_state(sorted: &SortedSheet<'_>, s: u8) -> bool
    ensures { result ≡ has_state (sheet_in sorted.now) s }
{
    has(sorted, Letter::S, s, 0)
}

pub(crate) fn has_production(sorted: &SortedSheet<'_>, p: u8) -> bool
    ensures { result ≡ has_production (sheet_in sorted.now) p }
{
    has(sorted, Letter::P, p, 0)
}

pub(crate) fn has_nonterminal(sorted: &SortedSheet<'_>, n: u8) -> bool
    ensures { result ≡ has_nonterminal (sheet_in sorted.now) n }
{
    has(sorted, Letter::N, n, 0)
}

pub(crate) fn has_symbol(sorted: &SortedSheet<'_>, symbol: Symbol) -> bool
    ensures { result ≡ has_symbol (sheet_in sorted.now) symbol }
{
    match symbol {
        Symbol::Terminal(_) => true,
        Symbol::Nonterminal(n) => has_nonterminal(sorted, n),
    }
}

pub(crate) fn has_target(sorted: &SortedSheet<'_>, action: Action) -> bool
    ensures { result ≡ has_target (sheet_in sorted.now) action }
{
    match action {
        Action::Shift(t) => has_state(sorted, t),
        Action::Reduce(p) => has_production(sorted, p),
        Action::Accept | Action::Reject => true,
    }
}
