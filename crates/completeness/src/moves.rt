//! Items before a symbol, which is shifted or has a goto, and where the item goes on one dot further.
ghost use Rattle.std.specs.Prelude.{◌≡◌, ◌+◌, ◌<◌};
ghost use Rattle.table.specs.Automaton.{decide as decided};
ghost use Rattle.hinted.specs.Sets.{Holds};
ghost use Rattle.completeness.specs.Items.{HasLooks, advanced, next_in, shifted_on, followed_on};

use crate::item::Item;
use hinted::Hinted;
use syntax::Symbol;
use table::Action;

/// An item of a table, with a symbol behind its dot.
#[derive(Drop)]
pub(crate) struct Step<'t, T: Hinted> {
    pub(crate) table: &'t T,
    pub(crate) item: Item,
    ghost has_looks: { HasLooks (T.hints table.now) item },
    ghost dot_few: { item.dot < 255 },
}

/// The action in a state before a terminal: the state's default, else that on the terminal.
pub(crate) fn decide<T: Hinted>(table: &T, s: u8, a: u8) -> Action
    ensures { result ≡ decided (T.Table.meaning table.now) s a }
{
    match table.default_reduction(s) {
        Some(p) => Action::Reduce(p),
        None => table.action(s, a),
    }
}

impl<'t, T: Hinted> Step<'t, T> {
    /// The look-aheads of the item one dot on in state `t`.
    fn next_looks(&self, t: u8) -> u64
        ensures { Holds result ((T.hints self.now.table.now).look_aheads t self.now.item.production (self.now.item.dot + 1)) }
    {
        self.table
            .look_aheads(t, self.item.production, self.item.dot + 1)
    }

    /// State `t` has the item one dot on, with at least the same look-aheads.
    fn goes_on(&self, t: u8) -> bool
        ensures { result ≡ next_in (T.Table.meaning self.now.table.now) (T.hints self.now.table.now) self.now.item t }
    {
        self.item.looks & self.next_looks(t) == self.item.looks
    }

    /// Terminal `a` behind the dot is shifted.
    fn shifts(&self, a: u8) -> bool
        ensures { result ≡ shifted_on (T.Table.meaning self.now.table.now) (T.hints self.now.table.now) self.now.item a }
    {
        match decide(self.table, self.item.state, a) {
            Action::Shift(t) => self.goes_on(t),
            Action::Reduce(_) | Action::Accept | Action::Reject => false,
        }
    }

    /// A goto on nonterminal `n` behind the dot, if there is one, goes on with the item.
    fn follows(&self, n: u8) -> bool
        ensures { result ≡ followed_on (T.Table.meaning self.now.table.now) (T.hints self.now.table.now) self.now.item n }
    {
        // The arms are written out, since a closure would need a contract of its own here.
        match self.table.goto(self.item.state, n) {
            Some(t) => self.goes_on(t),
            None => true,
        }
    }

    /// The symbol behind the dot is read as the item says.
    pub(crate) fn is_complete(&self, symbol: Symbol) -> bool
        ensures { result ≡ advanced (T.Table.meaning self.now.table.now) (T.hints self.now.table.now) self.now.item symbol }
    {
        match symbol {
            Symbol::Terminal(a) => self.shifts(a),
            Symbol::Nonterminal(n) => self.is_closed(n) && self.follows(n),
        }
    }
}
