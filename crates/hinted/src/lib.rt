//! A table that comes with the hints of its maker, as the validators ask it.
#![tactic(auto)]

ghost use Rattle.std.specs.Prelude.{◌≡◌, ℕ, length};
ghost use Rattle.table.specs.Automaton.{nth};
ghost use Rattle.table.specs.Hints.{Hints};
ghost use Rattle.layout.specs.Records.{sixteen, member};
ghost use Rattle.hinted.specs.Sets.{Holds, HoldsIfAny, InRange};

use syntax::Symbol;
use table::{STATES, Table};

/// State or terminal `x` is in a set; none from 64 on is.
#[tactic(auto, unfolding(layout::specs::Records::member))]
pub fn contains(set: u64, x: u8) -> bool
    ensures { result ≡ member sixteen set x }
{
    x < STATES && (set >> x) % 2 == 1
}

/// A question answers its part of the hints and changes nothing. A set is a 64-bit number: bit i is state or terminal i.
pub trait Hinted: Table {
    ghost hints: { Self → Hints };

    ghost bounded: { (t : Self) → InRange (hints t) };

    /// How many symbols are known to stand before the incoming one of a state.
    fn past_length(&self, s: u8) -> u8
        ensures { result ≡ length ((hints self.now).past_symbols s) };

    /// Past symbol `k` of a state, counted from the far end.
    fn past_symbol(&self, s: u8, k: u8) -> Option<Symbol>
        ensures { result ≡ nth ((hints self.now).past_symbols s) k };

    /// The states that can lie below a state at a depth; 0 is the nearest.
    fn past_set(&self, s: u8, depth: u8) -> Option<u64>
        ensures { HoldsIfAny result (nth ((hints self.now).past_sets s) depth) };

    /// The look-aheads of an item; 0 where the state has no such item.
    fn look_aheads(&self, s: u8, p: u8, dot: u8) -> u64
        ensures { Holds result ((hints self.now).look_aheads s p dot) };

    fn nullable(&self, n: u8) -> bool
        ensures { result ≡ (hints self.now).nullable n };

    /// The terminals with which the texts of a nonterminal begin.
    fn firsts(&self, n: u8) -> u64
        ensures { Holds result ((hints self.now).firsts n) };
}
