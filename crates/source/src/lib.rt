//! Token sources: the interface, and the faults that a source can end in.
#![tactic(auto)]

ghost use Rattle.std.specs.Prelude.{◌≡◌, ℕ, Some};
ghost use Rattle.syntax.specs.Grammar.{Kinded};
ghost use Rattle.syntax.specs.Told.{number_at_place};
ghost use Rattle.source.specs.Streams.{Stream, answer, dropped};
ghost use Rattle.source.specs.Faults.{number as number_of, place as place_of, layer as layer_of};

use std::fmt;
use syntax::Token;

/// Why a source gives no further token: what it met, the place in the plan, and the layer that tells it.
#[derive(Clone, Copy, PartialEq, Eq, Debug)]
pub enum SourceFault {
    UnknownByte { place: u32, layer: u8 },
    LongWord { place: u32, layer: u8 },
    LargeNumber { place: u32, layer: u8 },
    TooManyTokens { place: u32, layer: u8 },
}

impl SourceFault {
    pub fn number(self) -> u8
        ensures { result ≡ number_of self }
    {
        match self {
            SourceFault::UnknownByte { .. } => 9,
            SourceFault::LongWord { .. } => 10,
            SourceFault::LargeNumber { .. } => 11,
            SourceFault::TooManyTokens { .. } => 13,
        }
    }

    pub fn place(self) -> u32
        ensures { result ≡ place_of self }
    {
        match self {
            SourceFault::UnknownByte { place, .. }
            | SourceFault::LongWord { place, .. }
            | SourceFault::LargeNumber { place, .. }
            | SourceFault::TooManyTokens { place, .. } => place,
        }
    }

    pub fn layer(self) -> u8
        ensures { result ≡ layer_of self }
    {
        match self {
            SourceFault::UnknownByte { layer, .. }
            | SourceFault::LongWord { layer, .. }
            | SourceFault::LargeNumber { layer, .. }
            | SourceFault::TooManyTokens { layer, .. } => layer,
        }
    }
}

/// Its number and its place, as in `9 at 3`.
impl fmt::Display for SourceFault {
    ghost output = { λ f. Some (number_at_place (number_of f) (place_of f)) };

    fn fmt<W: fmt::Write>(&self, f: &mut fmt::Formatter<W>) -> fmt::Result {
        write!(f, "{} at {}", self.number(), self.place())
    }
}

/// The layer of a source that stands on no other.
pub const BOTTOM: u8 = 0;

/// The number of a kind of source, which its type fixes: 0 at the bottom, one more for each layer, 255 at most.
pub trait Layered {
    ghost layer: { ℕ };

    fn layer_number() -> u8
        ensures { result ≡ layer };
}

/// What gives tokens one by one. Its meaning is the tokens still to come and what stands behind them.
pub trait Source: Layered {
    ghost meaning: { Self → Stream };

    ghost kinded: { (s : Self) → Kinded (meaning s).tokens };

    /// The next token, or `None` at the end of the text, or the fault that ends it.
    fn peek(&mut self) -> Result<Option<Token>, SourceFault>
        ensures value { result ≡ answer (meaning self.old) }
        ensures same { meaning self.new ≡ meaning self.old };

    /// The same, and that token is gone.
    fn take(&mut self) -> Result<Option<Token>, SourceFault>
        ensures value { result ≡ answer (meaning self.old) }
        ensures after { meaning self.new ≡ dropped (meaning self.old) };
}
