//! The trace: a sink that writes the events of a reading as records of 16 bytes into a caller's bytes.
#![tactic(auto)]

ghost use Rattle.std.specs.Prelude.{◌≡◌, ℕ, ◌+◌, ◌<◌, ◌≤◌, List, length};
ghost use Rattle.std.proofs.Math.Seq.{paste};
ghost use Rattle.trace.specs.Records.{leaf_record, node_record, postfix, places};
ghost use Rattle.trace.specs.Piles.{children as children_of};

use sink::{Sink, SinkFault};
use syntax::Token;

/// Events as records in a caller's bytes: `records` of them, which leave `trees` trees.
#[derive(Drop)]
pub struct Trace<'a> {
    pub(crate) bytes: &'a mut [u8],
    pub(crate) records: usize,
    pub(crate) trees: usize,
    ghost fits: { records ≤ places bytes.now },
    ghost rooted: { trees ≤ records },
}

impl<'a> Trace<'a> {
    ghost use Rattle.trace.specs.Meaning.{fresh, bytes as bytes_of, meaning as stack_of, appended};
    ghost use Rattle.trace.specs.Grown.{Grown, Traced};

    /// A trace without a record; all bytes are as they were.
    pub fn new(bytes: &'a mut [u8]) -> Trace<'a>
        ensures { result ≡ fresh bytes.entry }
    {
        Trace {
            bytes,
            records: 0,
            trees: 0,
        }
    }

    /// How many records stand in the bytes.
    pub fn written(&self) -> usize
        ensures { result ≡ self.now.records }
    {
        // No more than there are places.
        self.records
    }

    /// Hands the bytes back. From `new` on they are the trees of the list, record by record, and behind these all is
    /// as it was.
    pub fn finish(self) -> &'a mut [u8]
        ensures bytes { result ≡ self.entry.bytes }
        ensures records { Traced self.entry }
    {
        let Trace { bytes, .. } = self;
        bytes
    }

    /// How many trees the records leave.
    fn listed(&self) -> u64
        ensures trees { result ≡ self.now.trees }
        ensures list { result ≡ length (stack_of self.now).list }
    {
        self.trees as u64
    }

    /// Writes a record, which makes one tree of the last `children`.
    fn append(&mut self, children: usize, event: [u8; 16])
        requires room { self.old.records < places (bytes_of self.old) }
        requires trees { children ≤ self.old.trees }
        requires children { children_of event ≡ children }
        ensures after { stack_of self.new ≡ appended children event (stack_of self.old) }
        ensures memory { Grown self.old self.new }
    {
        write_record(self.bytes, 16 * self.records, event);
        self.records += 1;
        self.trees = self.trees - children + 1;
    }
}

fn leaf_record(token: Token) -> [u8; 16]
    ensures { result ≡ leaf_record token }
{
    let mut event = [0; 16];
    event[0] = b'L';
    event[1] = token.kind;
    event[4..8].copy_from_slice(&token.place.to_be_bytes());
    event[8..16].copy_from_slice(&token.value.to_be_bytes());
    event
}

fn node_record(production: u8, children: u8) -> [u8; 16]
    ensures { result ≡ node_record production children }
{
    let mut event = [0; 16];
    event[0] = b'N';
    event[1] = production;
    event[2] = children;
    event
}

/// Writes `event` at `at`; the bytes before and behind it stay.
// `as_chunks_mut` would give places of 16, but its contract leaves open what the bytes hold after a write to one.
fn write_record(bytes: &mut [u8], at: usize, event: [u8; 16])
    requires { at + 16 ≤ length bytes.old }
    ensures { bytes.new ≡ paste bytes.old at event 16 }
{
    bytes[at..at + 16].copy_from_slice(&event);
}

impl<'a> Sink for Trace<'a> {
    ghost use Rattle.trace.specs.Meaning.{meaning as stack_of};
    ghost use Rattle.trace.specs.Grown.{Grown, grown_none, grown_more};

    ghost Value = { List ℕ };

    ghost algebra = { postfix };

    ghost meaning = { stack_of };

    ghost grows = { Grown };

    ghost still = { grown_none };

    ghost onward = { grown_more };

    fn trees(&self) -> u64 {
        self.listed()
    }

    fn leaf(&mut self, token: Token) -> Result<(), SinkFault> {
        if self.records == self.bytes.len() / 16 {
            return Err(SinkFault::Full {
                trees: self.listed(),
            });
        }
        self.append(0, leaf_record(token));
        Ok(())
    }

    fn node(&mut self, production: u8, children: u8) -> Result<(), SinkFault> {
        let trees = self.listed();
        if trees < u64::from(children) {
            return Err(SinkFault::TooFewTrees { trees });
        }
        if self.records == self.bytes.len() / 16 {
            return Err(SinkFault::Full { trees });
        }
        self.append(children as usize, node_record(production, children));
        Ok(())
    }
}
