//! The first items that an item before a nonterminal asks for.
ghost use Rattle.std.specs.Prelude.{◌≡◌, if◌then◌else◌};
ghost use Rattle.hinted.specs.Sets.{Holds};
ghost use Rattle.completeness.specs.Items.{OfTerminals, first_has, all_have, wanted_by, closed_on};

use crate::beginnings::beginning_from;
use crate::moves::Step;
use hinted::Hinted;
use table::PRODUCTIONS;

/// Look-aheads are those of a symbol before the end too, if all between is nullable.
fn passed_on(nullable: bool, looks: u64) -> u64
    ensures { result ≡ (if nullable then looks else 0) }
{
    if nullable { looks } else { 0 }
}

/// A first item of production `q` has at least the wanted look-aheads.
fn first_item_has<T: Hinted>(table: &T, s: u8, q: u8, wanted: u64) -> bool
    requires { OfTerminals wanted }
    ensures { result ≡ first_has (T.hints table.now) s wanted q }
{
    wanted & table.look_aheads(s, q, 0) == wanted
}

/// Each production of a nonterminal has its first item in the state, with at least the wanted look-aheads.
fn first_items_have<T: Hinted>(table: &T, s: u8, n: u8, wanted: u64) -> bool
    requires { OfTerminals wanted }
    ensures { result ≡ all_have (T.Table.meaning table.now) (T.hints table.now) s n wanted }
{
    for q in 0..PRODUCTIONS {
        let Some(production) = table.production(q) else {
            break;
        };
        if production.left == n && !first_item_has(table, s, q, wanted) {
            return false;
        }
    }
    true
}

impl<'t, T: Hinted> Step<'t, T> {
    /// The first terminals of what stands behind the symbol at the dot, and the look-aheads if all that is nullable.
    fn wanted(&self) -> u64
        ensures { Holds result (wanted_by (T.Table.meaning self.now.table.now) (T.hints self.now.table.now) self.now.item) }
    {
        let behind = beginning_from(self.table, self.item.production, self.item.dot + 1);
        behind.firsts | passed_on(behind.nullable, self.item.looks)
    }

    /// The item before nonterminal `n` has with it the first items that it asks for.
    pub(crate) fn is_closed(&self, n: u8) -> bool
        ensures { result ≡ closed_on (T.Table.meaning self.now.table.now) (T.hints self.now.table.now) self.now.item n }
    {
        first_items_have(self.table, self.item.state, n, self.wanted())
    }
}
