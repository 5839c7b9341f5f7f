//! The lexer: a source that gives the tokens of a plan, from the bytes of the plan.
#![tactic(auto)]

ghost use Rattle.std.specs.Prelude.{◌≡◌, ◌≤◌, true, length};
ghost use Rattle.streams.specs.Listed.{is_kind};

use crate::ahead::Ahead;
pub use opening::PlanRefusal;
pub use spell::spelling;
use syntax::Token;

mod ahead;
mod calls;
mod opening;
mod scan;
mod spell;

/// The tokens of a plan, from a position on. An item is scanned once, however often it is peeked.
#[derive(Drop)]
pub struct Lexer<'a> {
    plan: &'a [u8],
    at: usize,
    ahead: Ahead,
    token: Token,
    ghost short: { length plan.now ≤ 65535 },
    ghost within: { at ≤ length plan.now },
    ghost kind: { is_kind token.kind ≡ true },
}
