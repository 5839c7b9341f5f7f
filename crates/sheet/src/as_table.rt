//! A raw sheet asked as a table.
ghost use Rattle.std.specs.Prelude.{◌≡◌, ℕ};
ghost use Rattle.table.specs.Automaton.{head, symbol_at};
ghost use Rattle.layout.specs.Meaning.{automaton};
ghost use Rattle.wellformed.proofs.Lawful.{lawful_of};
ghost use Rattle.sheet.specs.Contents.{contents, sheet_in};

use crate::raw::RawSheet;
use layout::Letter;
use syntax::{Production, Symbol};
use table::{Action, Table};

impl<'a> Table for RawSheet<'a> {
    ghost meaning = { λ s. automaton (sheet_in s) };

    ghost lawful = { λ s. lawful_of (contents s) s.opens };

    fn production(&self, p: u8) -> Option<Production> {
        self.production_record(p).map(|record| record.production())
    }

    fn right_symbol(&self, p: u8, k: u8) -> Option<Symbol> {
        self.production_record(p)?.symbol(k)
    }

    fn incoming(&self, s: u8) -> Option<Symbol> {
        self.state_record(s)?.incoming()
    }

    fn default_reduction(&self, s: u8) -> Option<u8> {
        self.sorted
            .find(Letter::D, s, 0, 0)
            .map(|record| record.f1())
    }

    fn action(&self, s: u8, a: u8) -> Action {
        self.sorted
            .find(Letter::A, s, a, 0)
            .map_or(Action::Reject, |record| record.action())
    }

    fn goto(&self, s: u8, n: u8) -> Option<u8> {
        self.sorted
            .find(Letter::G, s, n, 0)
            .map(|record| record.f1())
    }
}
