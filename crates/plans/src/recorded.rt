//! Plans read into the records of a trace.
ghost use Rattle.std.specs.Prelude.{◌≡◌};
ghost use Rattle.plans.specs.Recorded.{Traces, RecordsTree};

use crate::read_plan;
use outcome::{Call, Report};
use pile::{PileRefusal, Plan};
use quota::Quota;
use table::Table;
use trace::Trace;

/// Reads a plan by any table into the records of a caller's bytes, `quota` of them at most. After accepted the
/// bytes begin with the records of the one tree of the plan, and behind them all is as it was.
pub fn trace_plan<'a, T: Table + Drop>(
    table: T,
    plan: Plan<'_, '_>,
    quota: u64,
    bytes: &'a mut [u8],
    calls: &[Call],
) -> (Result<Report, PileRefusal>, &'a mut [u8])
    ensures comes { Traces (T.Table.meaning table) plan.entry quota bytes.old calls.now result.0 result.1.now }
    ensures accepted { RecordsTree (T.Table.meaning table) plan.entry bytes.old result.0 result.1.now }
{
    let trace = Quota::new(quota, Trace::new(bytes));
    let read = read_plan(table, plan, trace, calls);
    (read.answer, read.sink.finish().finish())
}
