//! Which states can lie below a state, as sets: bit i is state i.
ghost use Rattle.std.specs.Prelude.{◌≡◌, ℕ, ◌/◌, ◌^◌, ◌<◌, ◌&&◌, nat_eq};
ghost use Rattle.table.specs.Automaton.{nth};
ghost use Rattle.table.specs.Lawful.{narrow};
ghost use Rattle.layout.specs.Records.{sixteen, member as member_of};
ghost use Rattle.layout.specs.Checking.{subset};
ghost use Rattle.hinted.specs.Sets.{Holds, HoldsIfAny};
ghost use Rattle.safety.specs.Parts.{alone, marked, covered, all_members_go};

use hinted::Hinted;
use table::{DEEPEST, STATES, Table};

/// The set of one state; none from 64 on is in a set.
fn only(s: u8) -> u64
    ensures { Holds result (alone s) }
{
    if s < STATES { 1 << s } else { 0 }
}

/// The states that can lie at a depth whenever `s` is on top: at 0 itself, then its past sets.
pub(crate) fn shadow_set<T: Hinted>(table: &T, s: u8, depth: u8) -> Option<u64>
    ensures { HoldsIfAny result (nth (marked (T.hints table.now) s) depth) }
{
    if depth == 0 {
        Some(only(s))
    } else {
        table.past_set(s, depth - 1)
    }
}

/// Every state of one set is in the other.
fn is_within(lower: u64, set: u64) -> bool
    ensures { result ≡ subset narrow (member_of sixteen lower) (member_of sixteen set) }
{
    lower & set == lower
}

/// At each depth at which `to` has a past set, it has all states that can lie there when `s` is on top.
pub(crate) fn is_covered<T: Hinted>(table: &T, s: u8, to: u8) -> bool
    ensures { result ≡ covered (T.hints table.now) s to }
{
    for depth in 0..DEEPEST {
        let Some(set) = table.past_set(to, depth) else {
            return true;
        };
        let Some(lower) = shadow_set(table, s, depth) else {
            return false;
        };
        if !is_within(lower, set) {
            return false;
        }
    }
    true
}

/// The set of the initial state.
pub(crate) fn is_initial(set: u64) -> bool
    ensures { result ≡ member_of sixteen set 0 && subset narrow (member_of sixteen set) (nat_eq 0) }
{
    set == 1
}

/// What a set has above its member `gap`, from bit 0 on: in two shifts, since there is none by 64.
fn above(set: u64, gap: u32) -> u64
    requires { gap < 64 }
    ensures { result ≡ set / 2 ^ gap / 2 }
{
    set >> gap >> 1
}

/// Every state of a set has a goto on nonterminal `n`.
// Member by member, since most sets have one state: to test all 64 took half as long again to check a sheet of reductions.
pub(crate) fn all_go<T: Hinted>(table: &T, set: u64, n: u8) -> bool
    ensures { result ≡ all_members_go (T.Table.meaning table.now) (T.hints table.now) set n }
{
    let mut rest = set;
    let mut s = 0;
    while rest != 0 {
        let gap = rest.trailing_zeros();
        s += gap as u8;
        if table.goto(s, n).is_none() {
            return false;
        }
        rest = above(rest, gap);
        s += 1;
    }
    true
}
