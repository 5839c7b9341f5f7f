//! Totals: a sink that measures trees, on a stack in a caller's slice.
#![tactic(auto)]

ghost use Rattle.std.specs.Prelude.{◌≡◌, ◌<◌, ◌≤◌, length};
ghost use Rattle.totals.specs.Merging.{merged};

use measure::{Measure, join_all};
use sink::{Sink, SinkFault};
use syntax::Token;

/// A stack of measures in a caller's places, of which the first `used` are taken.
#[derive(Drop)]
pub struct Totals<'a, M> {
    pub(crate) places: &'a mut [M],
    pub(crate) used: usize,
    ghost fits: { used ≤ length places.now },
}

impl<'a, M> Totals<'a, M> {
    ghost use Rattle.totals.specs.Meaning.{meaning as meaning_of, Begins, fresh};

    /// An empty stack: all places are free.
    pub fn new(places: &'a mut [M]) -> Totals<'a, M>
        ensures { result ≡ fresh places.entry }
    {
        Totals { places, used: 0 }
    }

    /// The places as they stand: the list, and behind it what is free.
    pub fn finish(self) -> &'a mut [M]
        ensures places { result ≡ self.entry.places }
        ensures list { Begins result.now (meaning_of self.entry).list }
    {
        let Totals { places, .. } = self;
        places
    }
}

/// The join of the places `from` to `to` goes into the place `from`; all others stay.
// A function of the slice, since of places that `Totals` itself lends only their number is known afterwards.
fn join_last<M: Measure + Copy>(places: &mut [M], from: usize, to: usize)
    requires { (from ≤ to) × ((to ≤ length places.old) × (from < length places.old)) }
    ensures { places.new ≡ merged M.Measure places.old from to }
{
    let sum = join_all(&places[from..to]);
    places[from] = sum;
}

impl<'a, M: Measure + Copy> Sink for Totals<'a, M> {
    ghost use Rattle.measure.specs.Joins.{joining};
    ghost use Rattle.totals.specs.Meaning.{meaning as meaning_of, Kept, kept_none, kept_more};

    ghost Value = { M };

    ghost algebra = { joining M.Measure };

    ghost meaning = { meaning_of };

    ghost grows = { Kept };

    ghost still = { kept_none };

    ghost onward = { kept_more };

    fn trees(&self) -> u64 {
        self.used as u64
    }

    fn leaf(&mut self, token: Token) -> Result<(), SinkFault> {
        if self.used == self.places.len() {
            return Err(SinkFault::Full {
                trees: self.used as u64,
            });
        }
        self.places[self.used] = M::of(token);
        self.used += 1;
        Ok(())
    }

    fn node(&mut self, _production: u8, children: u8) -> Result<(), SinkFault> {
        let trees = self.used as u64;
        if trees < u64::from(children) {
            return Err(SinkFault::TooFewTrees { trees });
        }
        // The value goes where the first child stands; only without children can there be no such place.
        let first = self.used - children as usize;
        if first == self.places.len() {
            return Err(SinkFault::Full { trees });
        }
        join_last(self.places, first, self.used);
        self.used = first + 1;
        Ok(())
    }
}
