ghost use Rattle.std.specs.Prelude.{◌≡◌, Some, min, max};
ghost use Rattle.measure.specs.Spans.{nowhere, hull, span, of_token, words};
ghost use Rattle.std.proofs.Common.{rules};

use crate::Measure;
use std::fmt;
use syntax::Token;

/// A stretch of a plan, from its first place to the place behind its last. That may need 33 bits.
#[derive(Clone, Copy, PartialEq, Eq, Debug)]
pub struct Span {
    pub start: u32,
    pub end: u64,
}

/// Its first place and the place behind its last, as in `0 6`.
impl fmt::Display for Span {
    ghost output = { λ s. Some (words s) };

    fn fmt<W: fmt::Write>(&self, f: &mut fmt::Formatter<W>) -> fmt::Result {
        write!(f, "{} {}", self.start, self.end)
    }
}

/// The stretch that tokens cover together.
impl Measure for Span {
    ghost unit = { nowhere };

    ghost join = { hull };

    ghost of = { of_token };

    ghost associative = { Prim.search rules };

    ghost unit_left = { Prim.search rules };

    ghost unit_right = { Prim.search rules };

    fn unit() -> Span {
        Span {
            start: u32::MAX,
            end: 0,
        }
    }

    fn join(self, other: Span) -> Span
        ensures joined { result ≡ hull self other }
        ensures span { result ≡ span (min self.start other.start) (max self.end other.end) }
    {
        Span {
            start: self.start.min(other.start),
            end: self.end.max(other.end),
        }
    }

    fn of(token: Token) -> Span {
        Span {
            start: token.place,
            end: u64::from(token.place) + u64::from(token.length),
        }
    }
}
