//! Whole runs: a reading made of its parts, taken through a list of calls, and finished.
#![tactic(auto)]

ghost use Rattle.std.specs.Prelude.{◌≡◌};
ghost use Rattle.reading.specs.Means.{run_of, Made};
ghost use Rattle.reading.specs.Promises.{Kept, Checked};
ghost use Rattle.drive.specs.Runs.{Closed, Ran};

use outcome::{Call, Report};
use reading::Reading;
use sink::Sink;
use source::Source;
use table::{CheckedTable, Table};

/// What a run comes to: how the reading stood after its last call, and its parts.
#[derive(Drop)]
pub struct Driven<T, S, K> {
    pub report: Report,
    pub table: T,
    pub source: S,
    pub sink: K,
}

// A mark changes nothing and asks for a table that was checked, so that a report stands for it.
fn make<T: Table, S: Source, K: Sink>(reading: &mut Reading<T, S, K>, call: Call)
    ensures { Made T.Table S.Source.own K.Sink call reading.old reading.new }
{
    match call {
        Call::Turn(n) => {
            let _ = reading.turn(n);
        }
        Call::Stop => {
            let _ = reading.stop();
        }
        Call::Report | Call::Mark => {
            let _ = reading.report();
        }
    }
}

fn close<T: Table, S: Source, K: Sink>(reading: Reading<T, S, K>) -> Driven<T, S, K>
    ensures { Closed T.Table S.Source.own K.Sink reading result }
{
    let report = reading.report();
    let (table, source, sink) = reading.finish();
    Driven {
        report,
        table,
        source,
        sink,
    }
}

/// Takes a reading of these parts through the calls, in order. What comes of it is what the machine says of this run, and
/// the promise holds of it.
pub fn drive<T: Table, S: Source, K: Sink>(
    table: T,
    source: S,
    sink: K,
    calls: &[Call],
) -> Driven<T, S, K>
    ensures ran { Ran T.Table S.Source.own K.Sink table source sink calls.now result }
    ensures promise { Kept K.Sink.algebra (run_of T.Table S.Source.own K.Sink table source sink calls.now) }
{
    let mut reading = Reading::new(table, source, sink);
    for call in calls {
        make(&mut reading, *call);
    }
    close(reading)
}

/// The same by a table that was checked: what is promised of valid tables holds of the run, and so of what a mark
/// would tell.
pub fn drive_checked<T: CheckedTable, S: Source, K: Sink>(
    table: T,
    source: S,
    sink: K,
    calls: &[Call],
) -> Driven<T, S, K>
    ensures ran { Ran T.Table S.Source.own K.Sink table source sink calls.now result }
    ensures promise { Checked K.Sink.algebra (run_of T.Table S.Source.own K.Sink table source sink calls.now) }
{
    table.validity();
    drive(table, source, sink, calls)
}
