ghost use Rattle.std.specs.Prelude.{◌≡◌};
ghost use Rattle.measure.specs.Joins.{joined, over_leaves, Bracketing};

use crate::Measure;
use syntax::Token;

/// The join of a row of measures.
pub fn join_all<M: Measure + Copy>(row: &[M]) -> M
    ensures { result ≡ joined M.Measure row.now }
{
    row.iter().fold(M::unit(), |sum, x| sum.join(*x))
}

/// The join over the tokens of a text: the total of every tree of it, whatever its bracketing.
pub fn over_leaves<M: Measure>(tokens: &[Token]) -> M
    ensures value { result ≡ over_leaves M.Measure tokens.now }
    ensures bracketing { Bracketing M.Measure }
{
    tokens
        .iter()
        .fold(M::unit(), |sum, token| sum.join(M::of(*token)))
}
