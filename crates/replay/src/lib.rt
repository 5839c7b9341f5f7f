//! Events as data: a list of them goes to any sink, up to the first that it refuses.
#![tactic(auto)]

ghost use Rattle.std.specs.Prelude.{◌≡◌, true, is_err};
ghost use Rattle.sink.specs.Stacks.{capacity};
ghost use Rattle.replay.specs.Events.{answer as answer_of, after as after_of, Sent};

use sink::{Sink, SinkFault};
use syntax::Token;

mod recorder;

pub use recorder::{Recorder, recorded};

/// What a reading sends to a sink: a token, or a reduction.
#[derive(Clone, Copy)]
pub enum Event {
    Leaf(Token),
    Node { production: u8, children: u8 },
}

/// Sends one event. Whatever its answer, the sink can hold as many values as before.
pub fn send<K: Sink>(sink: &mut K, event: Event) -> Result<(), SinkFault>
    ensures answer { result ≡ answer_of event (K.meaning sink.old) }
    ensures after { K.meaning sink.new ≡ after_of K.algebra event (K.meaning sink.old) }
    ensures capacity { capacity (K.meaning sink.new) ≡ capacity (K.meaning sink.old) }
    ensures memory { K.grows sink.old sink.new }
    ensures refused { is_err result ≡ true → sink.new ≡ sink.old }
{
    match event {
        Event::Leaf(token) => sink.leaf(token),
        Event::Node {
            production,
            children,
        } => sink.node(production, children),
    }
}

/// Sends events in order; the first that is refused ends it.
pub fn send_all<K: Sink>(sink: &mut K, events: &[Event]) -> Result<(), SinkFault>
    ensures sent { Sent K.Sink events.now sink.old result sink.new }
    ensures memory { K.grows sink.old sink.new }
{
    for event in events {
        send(sink, *event)?;
    }
    Ok(())
}
