ghost use Rattle.std.specs.Prelude.{◌≡◌, ◌+◌, min};
ghost use Rattle.measure.specs.Minutes.{largest, added, minutes};
ghost use Rattle.std.proofs.Common.{rules};

use crate::Measure;
use syntax::{NUMBER, Token};

/// The minutes of a plan: its numbers, added up as far as 64 bits go.
impl Measure for u64 {
    ghost unit = { 0 };

    ghost join = { added };

    ghost of = { minutes };

    ghost associative = { Prim.search rules };

    ghost unit_left = { Prim.search rules };

    ghost unit_right = { Prim.search rules };

    fn unit() -> u64 {
        0
    }

    fn join(self, other: u64) -> u64
        ensures joined { result ≡ added self other }
        ensures sum { result ≡ min (self + other) largest }
    {
        self.saturating_add(other)
    }

    fn of(token: Token) -> u64 {
        if token.kind == NUMBER { token.value } else { 0 }
    }
}
