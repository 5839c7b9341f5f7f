//! Whether an item goes on as it should, by what stands behind its dot.
ghost use Rattle.std.specs.Prelude.{◌≡◌};
ghost use Rattle.layout.specs.CompletenessTests.{item_at, initial_item};

use crate::beginnings::right_symbol;
use crate::ends::{END, End};
use crate::moves::Step;
use hinted::{Hinted, contains};
use table::ADDED;

/// An item of a state, and its look-aheads.
#[derive(Clone, Copy)]
pub(crate) struct Item {
    pub(crate) state: u8,
    pub(crate) production: u8,
    pub(crate) dot: u8,
    pub(crate) looks: u64,
}

/// The item of a production with so many right symbols before its dot; false where there is no such production.
pub fn item_is_complete<T: Hinted>(table: &T, s: u8, p: u8, dot: u8) -> bool
    ensures { result ≡ item_at (T.Table.meaning table.now) (T.hints table.now) s p dot }
{
    let item = Item {
        state: s,
        production: p,
        dot,
        looks: table.look_aheads(s, p, dot),
    };
    match right_symbol(table, p, dot) {
        None => End { table, item }.is_complete(),
        Some(symbol) => Step { table, item }.is_complete(symbol),
    }
}

/// The item by which a reading begins is there.
pub fn initial_item_is_there<T: Hinted>(table: &T) -> bool
    ensures { result ≡ initial_item (T.Table.meaning table.now) (T.hints table.now) }
{
    contains(table.look_aheads(0, ADDED, 0), END)
}
