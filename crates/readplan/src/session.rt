use crate::request::Request;
use crate::sheets::Sheet;
use crate::show::{show_events, show_turn};
use measure::{Measure, Span};
use outcome::{Call, Outcome, Report};
use pile::{PileRefusal, Plan};
use plans::measure_plan;
use quota::Quota;
use reading::Reading;
use sink::Sink;
use source::Source;
use std::alloc::AllocError;
use std::{fmt, io};
use table::Table;
use trace::Trace;

/// A plan, and the sheet that it is read by as a request asks.
#[derive(Drop)]
pub struct Session<'s, T> {
    pub rt: &'s HostRuntime,
    pub request: &'s Request,
    pub plan: Plan<'s, 's>,
    pub sheet: T,
}

impl<'s, T: Sheet<'s>> Session<'s, T> {
    /// Prints the record of a plan; whether nothing was refused.
    pub fn record(&self) -> anyhow::Result<bool> {
        let places = self.request.records.saturating_mul(16);
        let mut records: Vec<u8> = vec![in self.rt.alloc(); 0; places]?;
        let sink = Quota::new(self.request.quota, Trace::new(records.as_mut_slice()));
        let (answer, sink) = self.read(sink);
        show_events(self.rt, sink.finish().finish())?;
        match answer? {
            Ok(report) => {
                self.show_end(report)?;
                Ok(true)
            }
            Err(refusal) => {
                println!(self.rt; "plan refused {refusal}")?;
                Ok(false)
            }
        }
    }

    // The sink comes back with the answer, whatever that is.
    fn read<K: Sink>(&self, sink: K) -> (io::Result<Result<Report, PileRefusal>>, K) {
        let source = match self.plan.open() {
            Ok(source) => source,
            Err(refusal) => return (Ok(Err(refusal)), sink),
        };
        let mut reading = Reading::new(self.sheet, source, sink);
        let shown = self.make_turns(&mut reading);
        let report = T::tell(&reading);
        let (_, _, sink) = reading.finish();
        (shown.map(|()| Ok(report)), sink)
    }

    fn make_turns<S: Source, K: Sink>(&self, reading: &mut Reading<T, S, K>) -> io::Result<()> {
        for n in self.request.turns.iter() {
            let answer = reading.turn(*n);
            if self.request.shows_turns {
                show_turn(self.rt, *n, answer)?;
            }
        }
        Ok(())
    }

    // The end of a record: outcome, steps, and of an accepted plan its totals.
    fn show_end(&self, report: Report) -> anyhow::Result<()> {
        println!(self.rt; "outcome {}", report.outcome)?;
        println!(self.rt; "steps {}", report.steps)?;
        if report.outcome == Outcome::Accepted {
            self.show_total::<u64>("minutes")?;
            self.show_total::<Span>("span")?;
        }
        Ok(())
    }

    // A total of the plan, or how the reading into totals ended instead.
    fn show_total<M: Measure + Copy + fmt::Display + Drop>(
        &self,
        name: &str,
    ) -> anyhow::Result<()> {
        let mut places: Vec<M> = vec![in self.rt.alloc(); M::unit(); self.request.cells]?;
        let calls = self.calls()?;
        let (answer, places) = measure_plan(
            self.sheet,
            self.plan,
            places.as_mut_slice(),
            calls.as_slice(),
        );
        let outcome = answer.map_or(Outcome::Stopped, |report| report.outcome);
        match (outcome, places.first()) {
            (Outcome::Accepted, Some(total)) => println!(self.rt; "{name} {total}")?,
            _ => println!(self.rt; "{name} {outcome}")?,
        }
        Ok(())
    }

    fn calls(&self) -> Result<Vec<Call>, AllocError> {
        self.request
            .turns
            .iter()
            .map(|n| Call::Turn(*n))
            .collect(self.rt.alloc())
    }
}
