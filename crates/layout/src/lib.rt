//! What the bytes of a sheet mean, and what is refused of them: definitions, and the names that code shares with them.
#![tactic(auto)]

ghost use Rattle.std.specs.Prelude.{◌≡◌, Some};
ghost use Rattle.syntax.specs.Told.{number_at_place};
ghost use Rattle.layout.specs.Refusals.{number as number_of, place as place_of};

use std::fmt;

/// The letter that a record's key begins with.
#[derive(Clone, Copy, PartialEq, Eq, Debug)]
pub enum Letter {
    /// The action in a state before a terminal.
    A,
    /// The default reduction of a state.
    D,
    /// The goto of a state on a nonterminal.
    G,
    /// An item of a state, with its look-aheads.
    I,
    /// A set of states that lie behind a state.
    K,
    /// A nonterminal: nullable or not, and its first terminals.
    N,
    /// A production.
    P,
    /// A state: its incoming symbol and the symbols before that.
    S,
}

/// Why a sheet is refused, with the record that shows it: the one at fault, or the number of records where one is
/// missing.
#[derive(Clone, Copy, PartialEq, Eq, Debug)]
pub enum Refusal {
    /// No bytes, too many, or no whole number of records.
    Length,
    /// A key that is not above the one before.
    Order { record: u32 },
    /// A byte out of range, or a set that is empty and must not be.
    Range { record: u32 },
    /// Something named that has no record, a gap in a numbering, or no production, state or nonterminal at all.
    Absent { record: u32 },
    /// Records that contradict each other.
    Contradiction { record: u32 },
    /// An action or a goto that a reading could slip on.
    Unsafe { record: u32 },
    /// An item or a nonterminal by which a reading could refuse a good plan.
    Incomplete { record: u32 },
}

impl Refusal {
    pub fn number(self) -> u8
        ensures { result ≡ number_of self }
    {
        match self {
            Refusal::Length => 1,
            Refusal::Order { .. } => 2,
            Refusal::Range { .. } => 3,
            Refusal::Absent { .. } => 4,
            Refusal::Contradiction { .. } => 5,
            Refusal::Unsafe { .. } => 6,
            Refusal::Incomplete { .. } => 7,
        }
    }

    pub fn place(self) -> u32
        ensures { result ≡ place_of self }
    {
        match self {
            Refusal::Length => 0,
            Refusal::Order { record }
            | Refusal::Range { record }
            | Refusal::Absent { record }
            | Refusal::Contradiction { record }
            | Refusal::Unsafe { record }
            | Refusal::Incomplete { record } => record,
        }
    }
}

/// Its number and its place, as in `7 at 8`.
impl fmt::Display for Refusal {
    ghost output = { λ r. Some (number_at_place (number_of r) (place_of r)) };

    fn fmt<W: fmt::Write>(&self, f: &mut fmt::Formatter<W>) -> fmt::Result {
        write!(f, "{} at {}", self.number(), self.place())
    }
}
