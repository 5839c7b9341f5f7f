ghost use Rattle.std.specs.Prelude.{◌≡◌};
ghost use Rattle.trace.specs.Grown.{Grown, Traced};
ghost use Rattle.replay.specs.Recorded.{fresh, Fed, first_answer, overwritten};

use crate::{Event, send_all};
use quota::Quota;
use sink::SinkFault;
use trace::Trace;

/// A trace under a quota, both owned.
#[derive(Drop)]
pub struct Recorder<'a> {
    pub(crate) sink: Quota<Trace<'a>>,
}

impl<'a> Recorder<'a> {
    /// Takes `limit` events at most, and no more than the bytes have whole places.
    pub fn new(limit: u64, bytes: &'a mut [u8]) -> Recorder<'a>
        ensures { result ≡ fresh limit bytes.entry }
    {
        Recorder {
            sink: Quota::new(limit, Trace::new(bytes)),
        }
    }

    /// Sends events in order; the first that is refused ends it.
    pub fn send_all(&mut self, events: &[Event]) -> Result<(), SinkFault>
        ensures sent { Fed events.now self.old result self.new }
        ensures memory { Grown self.old.sink.below self.new.sink.below }
    {
        send_all(&mut self.sink, events)
    }

    /// Hands the bytes back.
    pub fn finish(self) -> &'a mut [u8]
        ensures bytes { result ≡ self.entry.sink.below.bytes }
        ensures records { Traced self.entry.sink.below }
    {
        let Recorder { sink } = self;
        sink.finish().finish()
    }
}

/// Sends events to a new recorder, and hands its bytes back: the records of the events that were taken, and behind
/// them all as it was.
pub fn recorded<'a>(
    limit: u64,
    bytes: &'a mut [u8],
    events: &[Event],
) -> (Result<(), SinkFault>, &'a mut [u8])
    ensures answer { result.0 ≡ first_answer limit events.now bytes.old }
    ensures bytes { result.1.now ≡ overwritten limit events.now bytes.old }
{
    let mut recorder = Recorder::new(limit, bytes);
    let answer = recorder.send_all(events);
    (answer, recorder.finish())
}
