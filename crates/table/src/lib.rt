//! An LR(1) table as a reading asks it: the interface, whatever holds the table.
#![tactic(auto)]

ghost use Rattle.std.specs.Prelude.{◌≡◌, ℕ};
ghost use Rattle.table.specs.Automaton.{Automaton, head, symbol_at};
ghost use Rattle.table.specs.Lawful.{Lawful, narrow};
ghost use Rattle.table.specs.Slips.{number as slip_number};
ghost use Rattle.table.specs.Validity.{Valid};

use syntax::{Production, Symbol};

/// How many terminals there are at most, END among them.
pub const TERMINALS: u8 = 32;

/// How many nonterminals there are at most.
pub const NONTERMINALS: u8 = 32;

/// How many productions there are at most.
pub const PRODUCTIONS: u8 = 64;

/// How many symbols a right side has at most.
pub const LONGEST: u8 = 8;

/// How many states a table has at most.
pub const STATES: u8 = 64;

/// How far back past symbols and past sets go at most.
pub const DEEPEST: u8 = 8;

/// The number of the production that is added to every grammar, whose right side is the start alone.
pub const ADDED: u8 = 254;

/// What to do in a state before a terminal.
#[derive(Clone, Copy, PartialEq, Eq, Debug)]
pub enum Action {
    Shift(u8),
    Reduce(u8),
    Accept,
    Reject,
}

/// How a reading by a table that was not checked goes wrong. Each slip has its number.
#[derive(Clone, Copy, PartialEq, Eq, Debug)]
pub enum Slip {
    /// A reduce wants more cells than there are, or its production is absent.
    FewCells = 1,
    /// A cell was not entered by the symbol that a reduce wants there.
    WrongSymbol = 2,
    /// A reduce leads nowhere: the state below it has no goto.
    NoGoto = 3,
    /// An accept finds other cells than one of the start, or a shift no token.
    AtEnd = 4,
}

impl Slip {
    pub fn number(self) -> u8
        ensures { result ≡ slip_number self }
    {
        self as u8
    }
}

/// A grammar and its automaton. A question answers its part of the meaning and changes nothing; out of range the answer
/// is `None`, and of an action `Reject`.
pub trait Table {
    ghost meaning: { Self → Automaton };

    ghost lawful: { (t : Self) → Lawful narrow (meaning t) };

    fn production(&self, p: u8) -> Option<Production>
        ensures { result ≡ head ((meaning self.now).grammar p) };

    /// Symbol `k` of the right side of production `p`, counted from 0.
    fn right_symbol(&self, p: u8, k: u8) -> Option<Symbol>
        ensures { result ≡ symbol_at ((meaning self.now).grammar p) k };

    /// The symbol that enters a state; none enters state 0.
    fn incoming(&self, s: u8) -> Option<Symbol>
        ensures { result ≡ (meaning self.now).incoming s };

    /// The production that a state reduces without a look at the next token.
    fn default_reduction(&self, s: u8) -> Option<u8>
        ensures { result ≡ (meaning self.now).default s };

    fn action(&self, s: u8, a: u8) -> Action
        ensures { result ≡ (meaning self.now).action s a };

    fn goto(&self, s: u8, n: u8) -> Option<u8>
        ensures { result ≡ (meaning self.now).goto s n };
}

/// A table that was checked: every text of its grammar can be read by it, and no reading by it slips.
pub trait CheckedTable: Table {
    /// Does nothing; its promise is that the table is safe and complete under some lawful hints.
    fn validity(&self)
        ensures { Valid narrow (Self.Table.meaning self.now) };
}
