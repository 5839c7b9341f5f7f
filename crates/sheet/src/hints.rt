//! A raw sheet asked for its hints.
ghost use Rattle.std.specs.Prelude.{◌≡◌, ℕ, length};
ghost use Rattle.table.specs.Automaton.{nth};
ghost use Rattle.layout.specs.Meaning.{hints as hints_of};
ghost use Rattle.hinted.specs.Sets.{Holds, HoldsIfAny};
ghost use Rattle.sheet.specs.Contents.{contents, sheet_in};
ghost use Rattle.wellformed.proofs.Bounds.{in_range_of};

use crate::raw::RawSheet;
use hinted::Hinted;
use layout::Letter;
use syntax::Symbol;

impl<'a> Hinted for RawSheet<'a> {
    ghost hints = { λ s. hints_of (sheet_in s) };

    ghost bounded = { λ s. in_range_of (contents s) s.opens };

    fn past_length(&self, s: u8) -> u8 {
        self.state_record(s).map_or(0, |state| state.f2())
    }

    fn past_symbol(&self, s: u8, k: u8) -> Option<Symbol> {
        self.state_record(s)?.symbol(k)
    }

    fn past_set(&self, s: u8, depth: u8) -> Option<u64> {
        self.sorted
            .find(Letter::K, s, depth, 0)
            .map(|past| past.payload())
    }

    fn look_aheads(&self, s: u8, p: u8, dot: u8) -> u64 {
        self.sorted
            .find(Letter::I, s, p, dot)
            .map_or(0, |item| item.payload())
    }

    fn nullable(&self, n: u8) -> bool {
        self.nonterminal_record(n)
            .is_some_and(|nonterminal| nonterminal.f1() == 1)
    }

    fn firsts(&self, n: u8) -> u64 {
        self.nonterminal_record(n)
            .map_or(0, |nonterminal| nonterminal.payload())
    }
}
