//! The rows of the items table. A list is nothing, or a list and an item; an item is a word and a number, or a list in
//! brackets.
ghost use Rattle.std.proofs.Math.Dec.{lit≤};
ghost use Rattle.table.specs.Lawful.{narrow};
ghost use Rattle.table.specs.Validity.{Valid};
ghost use Rattle.dense.specs.Rows.{automaton_of};
ghost use Rattle.dense.proofs.Lawful.{tested_is_lawful};
ghost use Rattle.items.specs.Rows.{items_rows};
ghost use Rattle.items.specs.Tested.{items_lawful};

use dense::{DenseRows, ValidRows};
use syntax::{Production, Symbol};
use table::Action::{self, Accept, Shift};

const LIST: Option<Symbol> = Some(Symbol::Nonterminal(0));

const ITEM: Option<Symbol> = Some(Symbol::Nonterminal(1));

const WORD: Option<Symbol> = Some(Symbol::Terminal(1));

const NUMBER: Option<Symbol> = Some(Symbol::Terminal(2));

const OPEN: Option<Symbol> = Some(Symbol::Terminal(7));

const CLOSE: Option<Symbol> = Some(Symbol::Terminal(8));

const NO: Action = Action::Reject;

/// The actions before END, a word, a number, an opening and a closing bracket, as the row of a state.
macro_rules! before {
    ($end:expr, $word:expr, $number:expr, $open:expr, $close:expr) => {
        [$end, $word, $number, NO, NO, NO, NO, $open, $close, NO, NO, NO, NO, NO, NO, NO]
    };
}

/// The actions of a state that has a default.
const IDLE: [Action; 16] = [NO; 16];

/// The rows of the items table.
#[derive(Clone, Copy, PartialEq, Eq, Debug)]
pub struct ItemsRows;

// A row of right symbols is 4 wide, and one of actions 16, so that an index is a shift.
impl DenseRows<4, 16, 2> for ItemsRows {
    ghost meaning = { automaton_of items_rows };

    ghost lawful = { tested_is_lawful items_rows items_lawful };

    fn productions() -> &'static [Production] {
        &[
            Production { left: 0, length: 0 },
            Production { left: 0, length: 2 },
            Production { left: 1, length: 2 },
            Production { left: 1, length: 3 },
        ]
    }

    fn right_symbols() -> &'static [[Option<Symbol>; 4]] {
        &[
            [None, None, None, None],
            [LIST, ITEM, None, None],
            [WORD, NUMBER, None, None],
            [OPEN, LIST, CLOSE, None],
        ]
    }

    fn incoming() -> &'static [Option<Symbol>] {
        &[
            None, // 0
            LIST, // 1
            WORD, // 2
            OPEN, // 3
            ITEM, // 4
            NUMBER, // 5
            LIST, // 6
            WORD, // 7
            OPEN, // 8
            CLOSE, // 9
            ITEM, // 10
            NUMBER, // 11
            LIST, // 12
            CLOSE, // 13
        ]
    }

    fn defaults() -> &'static [Option<u8>] {
        &[
            Some(0), // 0
            None, // 1
            None, // 2
            Some(0), // 3
            Some(1), // 4
            Some(2), // 5
            None, // 6
            None, // 7
            Some(0), // 8
            Some(3), // 9
            Some(1), // 10
            Some(2), // 11
            None, // 12
            Some(3), // 13
        ]
    }

    fn actions() -> &'static [[Action; 16]] {
        &[
            IDLE,
            before!(Accept, Shift(2), NO, Shift(3), NO),
            before!(NO, NO, Shift(5), NO, NO),
            IDLE,
            IDLE,
            IDLE,
            before!(NO, Shift(7), NO, Shift(8), Shift(9)),
            before!(NO, NO, Shift(11), NO, NO),
            IDLE,
            IDLE,
            IDLE,
            IDLE,
            before!(NO, Shift(7), NO, Shift(8), Shift(13)),
            IDLE,
        ]
    }

    // The nonterminals are a list and an item.
    fn gotos() -> &'static [[Option<u8>; 2]] {
        &[
            [Some(1), None],
            [None, Some(4)],
            [None, None],
            [Some(6), None],
            [None, None],
            [None, None],
            [None, Some(10)],
            [None, None],
            [Some(12), None],
            [None, None],
            [None, None],
            [None, None],
            [None, Some(10)],
            [None, None],
        ]
    }

    ghost widths = { (lit≤ tt, lit≤ tt, lit≤ tt) };
}

impl ValidRows<4, 16, 2> for ItemsRows {
    fn validity()
        ensures { Valid narrow (automaton_of items_rows) }
    {}
}
