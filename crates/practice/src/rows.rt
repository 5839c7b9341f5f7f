//! The rows of the practice table. Its grammar: a list is nothing, or a list and a word.
ghost use Rattle.std.proofs.Math.Dec.{lit≤};
ghost use Rattle.table.specs.Lawful.{narrow};
ghost use Rattle.table.specs.Validity.{Valid};
ghost use Rattle.layout.specs.Records.{sheet};
ghost use Rattle.layout.specs.Meaning.{automaton};
ghost use Rattle.layout.specs.Practice.{practice_bytes};
ghost use Rattle.wellformed.proofs.Lawful.{lawful_of};
ghost use Rattle.wellformed.proofs.Practice.{practice_opens};

use dense::{DenseRows, ValidRows};
use syntax::{Production, Symbol};
use table::Action;

const LIST: Option<Symbol> = Some(Symbol::Nonterminal(0));

const WORD: Option<Symbol> = Some(Symbol::Terminal(1));

/// The rows of the practice table.
#[derive(Clone, Copy, PartialEq, Eq, Debug)]
pub struct PracticeRows;

impl DenseRows<2, 2, 1> for PracticeRows {
    ghost meaning = { automaton (sheet practice_bytes) };

    ghost lawful = { lawful_of practice_bytes practice_opens };

    fn productions() -> &'static [Production] {
        &[
            Production { left: 0, length: 0 },
            Production { left: 0, length: 2 },
        ]
    }

    fn right_symbols() -> &'static [[Option<Symbol>; 2]] {
        &[[None, None], [LIST, WORD]]
    }

    fn incoming() -> &'static [Option<Symbol>] {
        &[None, LIST, WORD]
    }

    fn defaults() -> &'static [Option<u8>] {
        &[Some(0), None, Some(1)]
    }

    // The terminals are END and a word.
    fn actions() -> &'static [[Action; 2]] {
        &[
            [Action::Reject, Action::Reject],
            [Action::Accept, Action::Shift(2)],
            [Action::Reject, Action::Reject],
        ]
    }

    fn gotos() -> &'static [[Option<u8>; 1]] {
        &[[Some(1)], [None], [None]]
    }

    ghost widths = { (lit≤ tt, lit≤ tt, lit≤ tt) };
}

impl ValidRows<2, 2, 1> for PracticeRows {
    fn validity()
        ensures { Valid narrow (automaton (sheet practice_bytes)) }
    {}
}
