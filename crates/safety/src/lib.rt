//! The safety conditions, tested of any table that comes with hints. Where every test passes, no reading slips.
#![tactic(auto)]

ghost use Rattle.std.specs.Prelude.{◌≡◌};
ghost use Rattle.table.specs.Lawful.{narrow};
ghost use Rattle.layout.specs.SafetyTests.{edge_safe, reduce_safe, accept_safe, action_safe};
ghost use Rattle.safety.specs.Parts.{all_below_go, initial_below};

use crate::sets::{all_go, is_covered, is_initial, shadow_set};
use crate::symbols::{Past, RightSide, Trail, ends_with};
use hinted::Hinted;
use syntax::Symbol;
use table::{Action, Table};

mod sets;
mod symbols;

/// A shift or a goto from `s` leads to `to`: what is said to lie below `to` lies there whenever `s` is on top.
pub fn edge_is_safe<T: Hinted>(table: &T, s: u8, to: u8) -> bool
    ensures { result ≡ edge_safe narrow (T.Table.meaning table.now) (T.hints table.now) s to }
{
    let past = Past { table, state: to };
    ends_with(&Trail::of(table, s), &past) && is_covered(table, s, to)
}

/// Production `p` is reduced in `s`: its right side lies on top, and every state that can lie below it has the goto.
pub fn reduce_is_safe<T: Hinted>(table: &T, s: u8, p: u8) -> bool
    ensures { result ≡ reduce_safe narrow (T.Table.meaning table.now) (T.hints table.now) s p }
{
    let Some(production) = table.production(p) else {
        return false;
    };
    let right = RightSide {
        table,
        production: p,
    };
    ends_with(&Trail::of(table, s), &right)
        && all_below_go(table, s, production.length, production.left)
}

/// A text is accepted in `s`: the start, and nothing else, lies on top of the initial state.
pub fn accept_is_safe<T: Hinted>(table: &T, s: u8) -> bool
    ensures { result ≡ accept_safe narrow (T.Table.meaning table.now) (T.hints table.now) s }
{
    // State 0 is entered by no symbol, so it fails the first test.
    table.incoming(s) == Some(Symbol::Nonterminal(0)) && initial_below(table, s)
}

pub fn action_is_safe<T: Hinted>(table: &T, s: u8, action: Action) -> bool
    ensures { result ≡ action_safe narrow (T.Table.meaning table.now) (T.hints table.now) s action }
{
    match action {
        Action::Shift(to) => edge_is_safe(table, s, to),
        Action::Reduce(p) => reduce_is_safe(table, s, p),
        Action::Accept => accept_is_safe(table, s),
        Action::Reject => true,
    }
}

/// Every state that can lie at a depth, whenever `s` is on top, has a goto on nonterminal `n`.
fn all_below_go<T: Hinted>(table: &T, s: u8, depth: u8, n: u8) -> bool
    ensures { result ≡ all_below_go (T.Table.meaning table.now) (T.hints table.now) s depth n }
{
    // The arms are written out, since a closure would need a contract of its own here.
    match shadow_set(table, s, depth) {
        None => false,
        Some(set) => all_go(table, set, n),
    }
}

/// The initial state, and no other, can lie below `s`, and nothing below that.
fn initial_below<T: Hinted>(table: &T, s: u8) -> bool
    ensures { result ≡ initial_below (T.Table.meaning table.now) (T.hints table.now) s }
{
    table.past_set(s, 0).is_some_and(is_initial) && table.past_set(s, 1).is_none()
}
