//! Whether nullable and first terminals solve their equations.
ghost use Rattle.std.specs.Prelude.{◌≡◌};
ghost use Rattle.layout.specs.CompletenessTests.{equations_hold};
ghost use Rattle.completeness.specs.Rights.{BeginsAsAll};

use crate::beginnings::{Beginning, beginning_from};
use hinted::Hinted;
use table::PRODUCTIONS;

/// Of the right sides of a nonterminal, taken together.
fn beginning_of_all<T: Hinted>(table: &T, n: u8) -> Beginning
    ensures { BeginsAsAll (T.Table.meaning table.now) (T.hints table.now) n result }
{
    let mut firsts = 0;
    let mut nullable = false;
    for p in 0..PRODUCTIONS {
        let Some(production) = table.production(p) else {
            break;
        };
        if production.left == n {
            let right = beginning_from(table, p, 0);
            firsts |= right.firsts;
            nullable |= right.nullable;
        }
    }
    Beginning { firsts, nullable }
}

/// A nonterminal is nullable exactly where some right side of it is, and has their first terminals for its own.
pub fn equations_hold<T: Hinted>(table: &T, n: u8) -> bool
    ensures { result ≡ equations_hold (T.Table.meaning table.now) (T.hints table.now) n }
{
    let all = beginning_of_all(table, n);
    table.nullable(n) == all.nullable && table.firsts(n) == all.firsts
}
