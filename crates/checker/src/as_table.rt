//! A checked sheet asked as a table, and what its having been checked promises.
ghost use Rattle.std.specs.Prelude.{◌≡◌, ℕ};
ghost use Rattle.table.specs.Automaton.{head, symbol_at};
ghost use Rattle.table.specs.Lawful.{narrow};
ghost use Rattle.table.specs.Validity.{Valid};
ghost use Rattle.layout.specs.Meaning.{automaton};
ghost use Rattle.wellformed.proofs.Lawful.{lawful_of};
ghost use Rattle.exactness.proofs.Exact.{opens_of};
ghost use Rattle.checker.specs.Contents.{contents, sheet_in};

use crate::checked::CheckedSheet;
use syntax::{Production, Symbol};
use table::{Action, CheckedTable, Table};

impl<'a> Table for CheckedSheet<'a> {
    ghost meaning = { λ s. automaton (sheet_in s) };

    ghost lawful = { λ s. lawful_of (contents s) (opens_of (contents s) s.checked) };

    fn production(&self, p: u8) -> Option<Production> {
        self.raw.production(p)
    }

    fn right_symbol(&self, p: u8, k: u8) -> Option<Symbol> {
        self.raw.right_symbol(p, k)
    }

    fn incoming(&self, s: u8) -> Option<Symbol> {
        self.raw.incoming(s)
    }

    fn default_reduction(&self, s: u8) -> Option<u8> {
        self.raw.default_reduction(s)
    }

    fn action(&self, s: u8, a: u8) -> Action {
        self.raw.action(s, a)
    }

    fn goto(&self, s: u8, n: u8) -> Option<u8> {
        self.raw.goto(s, n)
    }
}

impl<'a> CheckedTable for CheckedSheet<'a> {
    fn validity(&self) {}
}
