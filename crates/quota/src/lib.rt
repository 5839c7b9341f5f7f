//! A quota: a layer over any sink that takes no more than a number of events.
#![tactic(auto)]

ghost use Rattle.std.specs.Prelude.{◌≡◌};
ghost use Rattle.quota.specs.Capped.{capped};

use sink::{Sink, SinkFault};
use syntax::Token;

/// The sink `below`, which takes `left` more events at most.
#[derive(Drop)]
pub struct Quota<K> {
    pub(crate) left: u64,
    pub(crate) below: K,
}

impl<K: Sink> Quota<K> {
    /// Takes the sink over; `left` events of it may follow.
    pub fn new(left: u64, below: K) -> Quota<K>
        ensures { result ≡ record { left = left; below = below } }
    {
        Quota { left, below }
    }

    /// The sink below, as it stands.
    pub fn finish(self) -> K
        ensures { result ≡ self.below }
    {
        let Quota { below, .. } = self;
        below
    }
}

impl<K: Sink> Sink for Quota<K> {
    ghost Value = { K.Sink.Value };

    ghost algebra = { K.Sink.algebra };

    ghost meaning = { λ s. capped s.left (K.Sink.meaning s.below) };

    ghost grows = { λ a b. K.Sink.grows a.below b.below };

    ghost still = { λ s. K.Sink.still s.below };

    ghost onward = { λ a b c p q. K.Sink.onward a.below b.below c.below p q };

    fn trees(&self) -> u64 {
        self.below.trees()
    }

    fn leaf(&mut self, token: Token) -> Result<(), SinkFault> {
        if self.left == 0 {
            return Err(SinkFault::Full {
                trees: self.below.trees(),
            });
        }
        self.below.leaf(token)?;
        self.left -= 1;
        Ok(())
    }

    // The two tests stand in each sink, in this order: as a call they would be no plainer, since what is full is its own.
    fn node(&mut self, production: u8, children: u8) -> Result<(), SinkFault> {
        let trees = self.below.trees();
        if trees < u64::from(children) {
            return Err(SinkFault::TooFewTrees { trees });
        }
        if self.left == 0 {
            return Err(SinkFault::Full { trees });
        }
        self.below.node(production, children)?;
        self.left -= 1;
        Ok(())
    }
}
