//! Items with nothing behind the dot: reduced, or accepted, on each look-ahead.
ghost use Rattle.std.specs.Prelude.{◌≡◌};
ghost use Rattle.completeness.specs.Items.{HasLooks, accepted_at_end, actions_reduced, reduced_on, reduced};
ghost use Rattle.completeness.specs.Items.{complete_at_end};

use crate::item::Item;
use crate::moves::decide;
use hinted::{Hinted, contains};
use table::{ADDED, Action, TERMINALS};

/// The terminal of the end of a text.
pub(crate) const END: u8 = 0;

/// An item of a table, with nothing behind its dot.
#[derive(Drop)]
pub(crate) struct End<'t, T: Hinted> {
    pub(crate) table: &'t T,
    pub(crate) item: Item,
    ghost has_looks: { HasLooks (T.hints table.now) item },
}

impl<'t, T: Hinted> End<'t, T> {
    fn accepts(&self) -> bool
        ensures { result ≡ accepted_at_end (T.Table.meaning self.now.table.now) (T.hints self.now.table.now) self.now.item }
    {
        !contains(self.item.looks, END)
            || decide(self.table, self.item.state, END) == Action::Accept
    }

    /// The item's production is reduced before terminal `a`, where no default decides.
    fn reduces_on(&self, a: u8) -> bool
        ensures { result ≡ reduced_on (T.Table.meaning self.now.table.now) (T.hints self.now.table.now) self.now.item a }
    {
        self.table.action(self.item.state, a) == Action::Reduce(self.item.production)
    }

    /// The action on each look-ahead reduces; of use where the state has no default.
    fn actions_reduce(&self) -> bool
        ensures { result ≡ actions_reduced (T.Table.meaning self.now.table.now) (T.hints self.now.table.now) self.now.item }
    {
        (0..TERMINALS)
            .filter(|a| contains(self.item.looks, *a))
            .all(|a| self.reduces_on(a))
    }

    /// A default decides for all look-aheads at once.
    fn reduces(&self) -> bool
        ensures { result ≡ reduced (T.Table.meaning self.now.table.now) (T.hints self.now.table.now) self.now.item }
    {
        match self.table.default_reduction(self.item.state) {
            Some(p) => self.item.looks == 0 || p == self.item.production,
            None => self.actions_reduce(),
        }
    }

    /// The added production accepts, any other is reduced; one that is absent has no item.
    pub(crate) fn is_complete(&self) -> bool
        ensures { result ≡ complete_at_end (T.Table.meaning self.now.table.now) (T.hints self.now.table.now) self.now.item }
    {
        if self.item.production == ADDED {
            return self.accepts();
        }
        self.table.production(self.item.production).is_some() && self.reduces()
    }
}
