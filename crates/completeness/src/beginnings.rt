//! What a part of a right side begins with.
ghost use Rattle.std.specs.Prelude.{◌≡◌};
ghost use Rattle.syntax.specs.Grammar.{InRange};
ghost use Rattle.table.specs.Automaton.{nth};
ghost use Rattle.table.specs.Completeness.{nullable_symbol, first_symbol};
ghost use Rattle.hinted.specs.Sets.{Holds};
ghost use Rattle.completeness.specs.Rights.{rights, BeginsFrom};

use hinted::Hinted;
use syntax::Symbol;
use table::{ADDED, LONGEST};

/// The first terminals of some symbols in a row, and whether all of them are nullable.
#[derive(Clone, Copy)]
pub(crate) struct Beginning {
    pub(crate) firsts: u64,
    pub(crate) nullable: bool,
}

/// Right symbol `k` of a production, which may be the added one.
pub(crate) fn right_symbol<T: Hinted>(table: &T, p: u8, k: u8) -> Option<Symbol>
    ensures { result ≡ nth (rights (T.Table.meaning table.now).grammar p) k }
{
    if p != ADDED {
        table.right_symbol(p, k)
    } else if k == 0 {
        Some(Symbol::Nonterminal(0))
    } else {
        None
    }
}

/// No terminal is nullable.
fn is_nullable<T: Hinted>(table: &T, symbol: Symbol) -> bool
    ensures { result ≡ nullable_symbol (T.hints table.now) symbol }
{
    match symbol {
        Symbol::Terminal(_) => false,
        Symbol::Nonterminal(n) => table.nullable(n),
    }
}

/// A terminal is its own first.
fn first_terminals<T: Hinted>(table: &T, symbol: Symbol) -> u64
    requires { InRange symbol }
    ensures { Holds result (first_symbol (T.hints table.now) symbol) }
{
    match symbol {
        Symbol::Terminal(a) => 1 << a,
        Symbol::Nonterminal(n) => table.firsts(n),
    }
}

/// What the right symbols of a production from `from` on begin with, up to the first that is not nullable.
pub(crate) fn beginning_from<T: Hinted>(table: &T, p: u8, from: u8) -> Beginning
    ensures { BeginsFrom (T.Table.meaning table.now) (T.hints table.now) p from result }
{
    let mut firsts = 0;
    for k in from..LONGEST {
        let Some(symbol) = right_symbol(table, p, k) else {
            break;
        };
        firsts |= first_terminals(table, symbol);
        if !is_nullable(table, symbol) {
            return Beginning {
                firsts,
                nullable: false,
            };
        }
    }
    Beginning {
        firsts,
        nullable: true,
    }
}
