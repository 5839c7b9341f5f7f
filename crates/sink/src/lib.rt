//! Sinks: what takes the events of a reading, a leaf for each token and a node for each reduction.
#![tactic(auto)]

ghost use Rattle.std.specs.Prelude.{◌≡◌, true, Some, length, is_err};
ghost use Rattle.syntax.specs.Told.{number_at_place};
ghost use Rattle.syntax.specs.Values.{Algebra};
ghost use Rattle.sink.specs.Stacks.{Stack, leaf_answer, leaf_after, node_answer, node_after};
ghost use Rattle.sink.specs.Faults.{number as number_of, place as place_of};

use std::fmt;
use syntax::Token;

mod lent;

/// Why a sink refuses an event, with the length of its list.
#[derive(Clone, Copy, PartialEq, Eq, Debug)]
pub enum SinkFault {
    Full { trees: u64 },
    TooFewTrees { trees: u64 },
}

impl SinkFault {
    /// The number under which users know the refusal.
    pub fn number(self) -> u8
        ensures { result ≡ number_of self }
    {
        match self {
            SinkFault::Full { .. } => 23,
            SinkFault::TooFewTrees { .. } => 24,
        }
    }

    /// The length of the list.
    pub fn place(self) -> u64
        ensures { result ≡ place_of self }
    {
        match self {
            SinkFault::Full { trees } | SinkFault::TooFewTrees { trees } => trees,
        }
    }
}

/// Its number and its place, as in `23 at 4`.
impl fmt::Display for SinkFault {
    ghost output = { λ f. Some (number_at_place (number_of f) (place_of f)) };

    fn fmt<W: fmt::Write>(&self, f: &mut fmt::Formatter<W>) -> fmt::Result {
        write!(f, "{} at {}", self.number(), self.place())
    }
}

/// What reads trees as values, in postfix. Its meaning is the list of the values so far and how much more it can take.
pub trait Sink {
    ghost Value: { Type 0 };

    ghost algebra: { Algebra Value };

    ghost meaning: { Self → Stack Value };

    /// What every call keeps of the memory behind the sink, from a value of the sink to a later one.
    ghost grows: { Self → Self → Type 0 };

    ghost still: { (s : Self) → grows s s };

    ghost onward: { (a b c : Self) → grows a b → grows b c → grows a c };

    /// How many values the list has.
    fn trees(&self) -> u64
        ensures { result ≡ length (meaning self.now).list };

    /// Appends the value of a token. A refusal leaves the sink as it was, with all memory behind it.
    fn leaf(&mut self, token: Token) -> Result<(), SinkFault>
        ensures answer { result ≡ leaf_answer (meaning self.old) }
        ensures after { meaning self.new ≡ leaf_after algebra token (meaning self.old) }
        ensures memory { grows self.old self.new }
        ensures refused { is_err result ≡ true → self.new ≡ self.old };

    /// Replaces the last `children` values by the value of a node over them. A refusal leaves all as it was.
    fn node(&mut self, production: u8, children: u8) -> Result<(), SinkFault>
        ensures answer { result ≡ node_answer children (meaning self.old) }
        ensures after { meaning self.new ≡ node_after algebra production children (meaning self.old) }
        ensures memory { grows self.old self.new }
        ensures refused { is_err result ≡ true → self.new ≡ self.old };
}
