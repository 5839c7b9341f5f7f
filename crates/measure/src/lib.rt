//! Measures: values of tokens that are joined over a tree.
#![tactic(auto)]

ghost use Rattle.std.specs.Prelude.{◌≡◌};
ghost use Rattle.syntax.specs.declared.Token.{Token};

use syntax::Token;

mod minutes;
mod rows;
mod spans;

pub use rows::{join_all, over_leaves};
pub use spans::Span;

/// What tokens are measured by: a value for each, and a join that is associative and has a unit.
pub trait Measure: Sized {
    ghost unit: { Self };

    ghost join: { Self → Self → Self };

    ghost of: { Token → Self };

    /// The measure of no token.
    fn unit() -> Self
        ensures { result ≡ unit };

    /// The measure of what `self` covers and `other` behind it.
    fn join(self, other: Self) -> Self
        ensures { result ≡ join self other };

    /// The measure of one token.
    fn of(token: Token) -> Self
        ensures { result ≡ of token };

    ghost associative: { (x y z : Self) → join (join x y) z ≡ join x (join y z) };

    ghost unit_left: { (x : Self) → join unit x ≡ x };

    ghost unit_right: { (x : Self) → join x unit ≡ x };
}
