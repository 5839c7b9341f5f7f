ghost use Rattle.std.specs.Prelude.{◌≡◌, []};
ghost use Rattle.outcome.specs.declared.Call.TheVariants.{Turn, Stop, Mark, Report as Tell};
ghost use Rattle.machine.specs.Calls.{report as told, turn_answer, stop_answer, mark_answer};
ghost use Rattle.reading.specs.Means.{reads, run_of, Reaches, Made};
ghost use Rattle.reading.specs.Promises.{Kept, Checked, OfRuns, Finished};

use crate::MOST_STEPS;
use crate::state::Reading;
use arrayvec::ArrayVec;
use outcome::{Declined, Outcome, Report};
use sink::Sink;
use source::Source;
use table::{CheckedTable, Table};

impl<T: Table, S: Source, K: Sink> Reading<T, S, K> {
    /// Takes over a table, a source and a sink, as they are. No cell is used and no step made.
    pub fn new(table: T, source: S, sink: K) -> Reading<T, S, K>
        ensures parts { (result.table ≡ table) × (result.source ≡ source) × (result.sink ≡ sink) }
        ensures run { Reaches T.Table S.Source.own K.Sink (run_of T.Table S.Source.own K.Sink table source sink []) result }
    {
        Reading {
            table,
            source,
            sink,
            cells: ArrayVec::new(),
            steps: 0,
            outcome: Outcome::More,
        }
    }

    /// Makes up to `n` steps and answers the outcome. Declined when the reading has ended, else when `n` could bring the
    /// steps above 1,000,000,000,000.
    pub fn turn(&mut self, n: u16) -> Result<Outcome, Declined>
        ensures answer { result ≡ turn_answer K.Sink.algebra n (reads T.Table S.Source.own K.Sink self.old) }
        ensures made { Made T.Table S.Source.own K.Sink (Turn n) self.old self.new }
    {
        if self.outcome.has_ended() {
            return Err(Declined::Ended { steps: self.steps });
        }
        if self.steps > MOST_STEPS - u64::from(n) {
            return Err(Declined::TooManySteps { steps: self.steps });
        }
        if let Err(halt) = self.advance(n) {
            self.outcome = Outcome::Halted(halt);
        }
        Ok(self.outcome)
    }

    /// Ends the reading, stopped. Declined when it has ended.
    pub fn stop(&mut self) -> Result<(), Declined>
        ensures answer { result ≡ stop_answer K.Sink.algebra (reads T.Table S.Source.own K.Sink self.old) }
        ensures made { Made T.Table S.Source.own K.Sink Stop self.old self.new }
    {
        if self.outcome.has_ended() {
            return Err(Declined::Ended { steps: self.steps });
        }
        self.outcome = Outcome::Stopped;
        Ok(())
    }

    /// Tells the outcome and all steps made, at any time.
    pub fn report(&self) -> Report
        ensures answer { result ≡ told (reads T.Table S.Source.own K.Sink self.now) }
        ensures made { Made T.Table S.Source.own K.Sink Tell self.now self.now }
        ensures promise { OfRuns T.Table S.Source.own K.Sink (Kept K.Sink.algebra) self.now }
    {
        Report {
            outcome: self.outcome,
            steps: self.steps,
        }
    }

    /// Hands all parts back as they stand.
    pub fn finish(self) -> (T, S, K)
        ensures parts { (result.0 ≡ self.table) × (result.1 ≡ self.source) × (result.2 ≡ self.sink) }
        ensures promise { OfRuns T.Table S.Source.own K.Sink (Finished T.Table S.Source.own K.Sink result.0 result.1 result.2) self }
    {
        let Reading {
            table,
            source,
            sink,
            ..
        } = self;
        (table, source, sink)
    }
}

impl<T: CheckedTable, S: Source, K: Sink> Reading<T, S, K> {
    /// Tells of an ended reading what report tells, by a table that was checked. Declined before the end.
    pub fn mark(&self) -> Result<Report, Declined>
        ensures answer { result ≡ mark_answer K.Sink.algebra (reads T.Table S.Source.own K.Sink self.now) }
        ensures made { Made T.Table S.Source.own K.Sink Mark self.now self.now }
        ensures promise { OfRuns T.Table S.Source.own K.Sink (Checked K.Sink.algebra) self.now }
    {
        self.table.validity();
        if !self.outcome.has_ended() {
            return Err(Declined::BeforeEnd { steps: self.steps });
        }
        Ok(self.report())
    }
}
