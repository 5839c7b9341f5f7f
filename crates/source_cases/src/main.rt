//! Worked cases of the token sources: rows that the prover computes, and a table of sources that are run.
#![tactic(auto)]

ghost use Rattle.source_cases.specs.Rows.{RowsHold};

use crate::keyed::show_keywords;
use crate::lists::show_list;
use crate::plans::{show_limited, show_long_plans, show_many_peeks, show_plan};
use std::io;

mod keyed;
mod lists;
mod plans;
mod show;

// The rows are what the definitions give.
fn rows_hold()
    ensures { RowsHold }
{}

fn main(rt: HostRuntime) -> io::Result<()> {
    rows_hold();
    show_plan(&rt, b"abcdefgh+4294967295")?;
    show_plan(&rt, b"a 99999999999999999999999999")?;
    show_limited(&rt, b"on off !", 2)?;
    show_limited(&rt, b"on off", 1)?;
    show_limited(&rt, b"on off", 0)?;
    show_limited(&rt, b" ", 0)?;
    show_long_plans(&rt)?;
    show_many_peeks(&rt)?;
    show_list(&rt, [1, 31, 7])?;
    show_list(&rt, [1, 0, 32])?;
    show_list(&rt, [32, 1, 1])?;
    show_keywords(&rt)
}
