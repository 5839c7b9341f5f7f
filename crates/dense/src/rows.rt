//! The dense table that is held by rows, whatever rows they are.
ghost use Rattle.std.specs.Prelude.{◌≡◌, ℕ, None, slice_index_or};
ghost use Rattle.table.specs.declared.Action.TheVariants.{Reject};
ghost use Rattle.table.specs.Automaton.{Automaton, head, nth, symbol_at};
ghost use Rattle.table.specs.Lawful.{Lawful, narrow};
ghost use Rattle.table.specs.Validity.{Valid};
ghost use Rattle.dense.specs.Rows.{cell, WidthsFit};

use crate::{cell_or, entry, entry_or};
use std::marker::PhantomData;
use syntax::{Production, Symbol};
use table::{Action, CheckedTable, Table};

/// The rows of a table, all of them constants, and what they answer at any index. A row of right symbols is `LONGEST`
/// wide, one of actions `TERMINALS`, and one of gotos `NONTERMINALS`.
pub trait DenseRows<const LONGEST: usize, const TERMINALS: usize, const NONTERMINALS: usize> {
    ghost meaning: { Automaton };

    ghost lawful: { Lawful narrow meaning };

    fn productions() -> &'static [Production]
        ensures { (p : ℕ) → nth result.now p ≡ head (meaning.grammar p) };

    /// By production and place.
    fn right_symbols() -> &'static [[Option<Symbol>; LONGEST]]
        ensures { (p k : ℕ) → cell result.now None p k ≡ symbol_at (meaning.grammar p) k };

    /// By state.
    fn incoming() -> &'static [Option<Symbol>]
        ensures { (s : ℕ) → slice_index_or result.now s None ≡ meaning.incoming s };

    /// By state.
    fn defaults() -> &'static [Option<u8>]
        ensures { (s : ℕ) → slice_index_or result.now s None ≡ meaning.default s };

    /// By state and terminal.
    fn actions() -> &'static [[Action; TERMINALS]]
        ensures { (s a : ℕ) → cell result.now Reject s a ≡ meaning.action s a };

    /// By state and nonterminal.
    fn gotos() -> &'static [[Option<u8>; NONTERMINALS]]
        ensures { (s n : ℕ) → cell result.now None s n ≡ meaning.goto s n };

    ghost widths: { WidthsFit LONGEST TERMINALS NONTERMINALS };
}

/// Rows whose table was checked.
pub trait ValidRows<
    const LONGEST: usize,
    const TERMINALS: usize,
    const NONTERMINALS: usize,
>: DenseRows<LONGEST, TERMINALS, NONTERMINALS> {
    /// Does nothing; its promise is that the table is safe and complete under some lawful hints.
    fn validity()
        ensures { Valid narrow Self.DenseRows.meaning };
}

/// The table that rows hold. It has no other value than `Dense { rows: PhantomData }`.
#[derive(Clone, Copy, PartialEq, Eq, Debug)]
pub struct Dense<R, const LONGEST: usize, const TERMINALS: usize, const NONTERMINALS: usize> {
    pub rows: PhantomData<R>,
}

impl<
    R: DenseRows<LONGEST, TERMINALS, NONTERMINALS>,
    const LONGEST: usize,
    const TERMINALS: usize,
    const NONTERMINALS: usize,
> Table for Dense<R, LONGEST, TERMINALS, NONTERMINALS> {
    ghost meaning = { λ t. R.meaning };

    ghost lawful = { λ t. R.lawful };

    fn production(&self, p: u8) -> Option<Production> {
        entry(R::productions(), p)
    }

    fn right_symbol(&self, p: u8, k: u8) -> Option<Symbol> {
        cell_or(R::right_symbols(), p, k, None)
    }

    fn incoming(&self, s: u8) -> Option<Symbol> {
        entry_or(R::incoming(), s, None)
    }

    fn default_reduction(&self, s: u8) -> Option<u8> {
        entry_or(R::defaults(), s, None)
    }

    fn action(&self, s: u8, a: u8) -> Action {
        cell_or(R::actions(), s, a, Action::Reject)
    }

    fn goto(&self, s: u8, n: u8) -> Option<u8> {
        cell_or(R::gotos(), s, n, None)
    }
}

impl<
    R: ValidRows<LONGEST, TERMINALS, NONTERMINALS>,
    const LONGEST: usize,
    const TERMINALS: usize,
    const NONTERMINALS: usize,
> CheckedTable for Dense<R, LONGEST, TERMINALS, NONTERMINALS> {
    fn validity(&self) {
        R::validity()
    }
}
