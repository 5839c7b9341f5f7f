//! Which symbols lie on top whenever a state does.
ghost use Rattle.std.specs.Prelude.{◌≡◌, ℕ, ◌+◌, List, [], length};
ghost use Rattle.syntax.specs.declared.Symbol.{Symbol};
ghost use Rattle.table.specs.Automaton.{nth};
ghost use Rattle.table.specs.Hints.{trail};
ghost use Rattle.layout.specs.Choices.{given};
ghost use Rattle.layout.specs.Checking.{ends};
ghost use Rattle.safety.specs.Parts.{same_ones};

use hinted::Hinted;
use syntax::Symbol;
use table::Table;

/// Symbols in a row, the nearest last.
pub(crate) trait Row {
    ghost symbols: { Self → List Symbol };

    fn length(&self) -> u8
        ensures { result ≡ length (symbols self.now) };

    /// Symbol `k`, counted from the far end.
    fn symbol(&self, k: u8) -> Option<Symbol>
        ensures { result ≡ nth (symbols self.now) k };
}

/// The past symbols of a state.
#[derive(Drop)]
pub(crate) struct Past<'t, T> {
    pub(crate) table: &'t T,
    pub(crate) state: u8,
}

impl<'t, T: Hinted> Row for Past<'t, T> {
    ghost symbols = { λ r. (T.hints r.table.now).past_symbols r.state };

    fn length(&self) -> u8 {
        self.table.past_length(self.state)
    }

    fn symbol(&self, k: u8) -> Option<Symbol> {
        self.table.past_symbol(self.state, k)
    }
}

/// The right side of a production; empty if there is no such production.
#[derive(Drop)]
pub(crate) struct RightSide<'t, T> {
    pub(crate) table: &'t T,
    pub(crate) production: u8,
}

impl<'t, T: Hinted> Row for RightSide<'t, T> {
    ghost symbols = { λ r. given [] (λ x. x.right) ((T.Table.meaning r.table.now).grammar r.production) };

    fn length(&self) -> u8 {
        self.table
            .production(self.production)
            .map_or(0, |production| production.length)
    }

    fn symbol(&self, k: u8) -> Option<Symbol> {
        self.table.right_symbol(self.production, k)
    }
}

/// The symbols that are known to lie on top in a state: its past ones and the one that enters it.
#[derive(Drop)]
pub(crate) struct Trail<'t, T: Hinted> {
    table: &'t T,
    state: u8,
    past: u8,
    ghost past_is: { past ≡ length ((T.hints table.now).past_symbols state) },
}

impl<'t, T: Hinted> Trail<'t, T> {
    pub(crate) fn of(table: &'t T, state: u8) -> Self
        ensures { (result.table.now ≡ table.now) × (result.state ≡ state) }
    {
        Trail {
            table,
            state,
            past: table.past_length(state),
        }
    }
}

impl<'t, T: Hinted> Row for Trail<'t, T> {
    ghost symbols = { λ r. trail (T.Table.meaning r.table.now) (T.hints r.table.now) r.state };

    fn length(&self) -> u8 {
        match self.table.incoming(self.state) {
            None => self.past,
            Some(_) => self.past + 1,
        }
    }

    fn symbol(&self, k: u8) -> Option<Symbol> {
        if k < self.past {
            self.table.past_symbol(self.state, k)
        } else if k == self.past {
            self.table.incoming(self.state)
        } else {
            None
        }
    }
}

/// Both are there and the same.
fn is_same(a: Option<Symbol>, b: Option<Symbol>) -> bool
    ensures { result ≡ same_ones a b }
{
    a.is_some() && a == b
}

/// The symbols of `top` are the last ones of `row`.
pub(crate) fn ends_with<A: Row, B: Row>(row: &A, top: &B) -> bool
    ensures { result ≡ ends (B.symbols top.now) (A.symbols row.now) }
{
    let length = top.length();
    let known = row.length();
    if known < length {
        return false;
    }
    let beyond = known - length;
    (0..length).all(|k| is_same(top.symbol(k), row.symbol(beyond + k)))
}
