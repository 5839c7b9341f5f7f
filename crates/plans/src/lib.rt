//! Plans read from their bytes: through lexer, keywords and limit, by a table, into a sink.
#![tactic(auto)]

ghost use Rattle.std.specs.Prelude.{◌≡◌, Ok as Good};
ghost use Rattle.pile.specs.Piles.{plan_answer};
ghost use Rattle.reading.specs.Promises.{Kept, Checked};
ghost use Rattle.plans.specs.Plans.{plan_run, Comes};

use drive::drive;
use outcome::{Call, Report};
use pile::{PileRefusal, Plan};
use sink::Sink;
use table::{CheckedTable, Table};

mod measured;
mod recorded;

pub use measured::measure_plan;
pub use recorded::trace_plan;

/// What comes of a plan: how the reading stood after its last call, or why it was not begun; and the sink.
#[derive(Drop)]
pub struct PlanRead<K> {
    pub answer: Result<Report, PileRefusal>,
    pub sink: K,
}

/// Reads a plan by any table. A plan or a keyword that is refused leaves the sink as it was.
pub fn read_plan<T: Table + Drop, K: Sink>(
    table: T,
    plan: Plan<'_, '_>,
    sink: K,
    calls: &[Call],
) -> PlanRead<K>
    ensures comes { Comes T.Table K.Sink table plan.entry sink calls.now result }
    ensures promise { plan_answer plan.entry ≡ Good tt →
        Kept K.Sink.algebra (plan_run T.Table K.Sink table plan.entry sink calls.now) }
{
    match plan.open() {
        Ok(source) => {
            let driven = drive(table, source, sink, calls);
            PlanRead {
                answer: Ok(driven.report),
                sink: driven.sink,
            }
        }
        Err(refusal) => PlanRead {
            answer: Err(refusal),
            sink,
        },
    }
}

/// The same by a table that was checked: all that is promised of valid tables holds of the run.
pub fn read_plan_checked<T: CheckedTable + Drop, K: Sink>(
    table: T,
    plan: Plan<'_, '_>,
    sink: K,
    calls: &[Call],
) -> PlanRead<K>
    ensures comes { Comes T.Table K.Sink table plan.entry sink calls.now result }
    ensures promise { plan_answer plan.entry ≡ Good tt →
        Checked K.Sink.algebra (plan_run T.Table K.Sink table plan.entry sink calls.now) }
{
    // A mark changes nothing, so it may be made as a report is.
    table.validity();
    read_plan(table, plan, sink, calls)
}
