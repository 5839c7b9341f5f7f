//! Plans measured.
ghost use Rattle.std.specs.Prelude.{◌≡◌};
ghost use Rattle.plans.specs.Measured.{Measures};

use crate::read_plan;
use measure::Measure;
use outcome::{Call, Report};
use pile::{PileRefusal, Plan};
use table::Table;
use totals::Totals;

/// Measures a plan by any table, on a stack in a caller's places. After accepted the first place holds the join
/// over the tokens of the plan.
pub fn measure_plan<'a, T: Table + Drop, M: Measure + Copy + Drop>(
    table: T,
    plan: Plan<'_, '_>,
    places: &'a mut [M],
    calls: &[Call],
) -> (Result<Report, PileRefusal>, &'a mut [M])
    ensures comes { Measures M.Measure (T.Table.meaning table) plan.entry
        places.old calls.now result.0 result.1.now }
{
    let read = read_plan(table, plan, Totals::new(places), calls);
    (read.answer, read.sink.finish())
}
