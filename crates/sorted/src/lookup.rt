//! The look-up of a record by its key.
ghost use Rattle.std.specs.Prelude.{◌≡◌, ◌+◌, ◌≤◌, length, slice_index};
ghost use Rattle.layout.specs.Records.{count as count_of, code as code_of, key_of};
ghost use Rattle.layout.specs.Search.{position, starts as starts_of, index_of};
ghost use Rattle.sorted.specs.Contents.{contents, sheet_in, rows_in};
ghost use Rattle.sorted.specs.Found.{by_place, by_key, from_key, by_count};

use crate::held::SortedSheet;
use crate::ordered::Ordered;
use crate::rows::{record_at, rows_of};
use layout::Letter;
use records::{Record, WIDTH, code, key_of};
use std::ops::Range;

impl<'a> SortedSheet<'a> {
    pub fn bytes(&self) -> &'a [u8]
        ensures { result.now ≡ contents self.now }
    {
        self.bytes
    }

    /// The bytes of each record, which `Record::from` takes.
    pub fn rows(&self) -> &'a [[u8; WIDTH]]
        ensures rows { result.now ≡ rows_in (sheet_in self.now) }
        ensures count { length result.now ≡ count_of (sheet_in self.now) }
    {
        rows_of(self.bytes)
    }

    /// How many records the sheet has.
    pub fn records(&self) -> usize
        ensures { result ≡ count_of (sheet_in self.now) }
    {
        self.rows().len()
    }

    /// Record `i`, counted from 0.
    pub fn record(&self, i: usize) -> Option<Record>
        ensures { result ≡ by_place (sheet_in self.now) i }
    {
        record_at(self.rows(), i)
    }

    fn ordered(&self) -> Ordered<'a>
        ensures { result.bytes.now ≡ contents self.now }
    {
        Ordered { bytes: self.bytes }
    }

    /// Where the records of a letter begin and end.
    fn range_of(&self, letter: Letter) -> Range<usize>
        ensures start { result.start ≡ slice_index (starts_of (sheet_in self.now)) (index_of letter) }
        ensures end { result.end ≡ slice_index (starts_of (sheet_in self.now)) (index_of letter + 1) }
        ensures within { result.end ≤ count_of (sheet_in self.now) }
    {
        let i = letter as usize;
        self.starts[i] as usize..self.starts[i + 1] as usize
    }

    /// Where a record with this key stands, or would stand.
    fn position_of(&self, letter: Letter, a: u8, b: u8, c: u8) -> usize
        ensures { result ≡ position (sheet_in self.now) (key_of (code_of letter) a b c) }
    {
        let Range { start, end } = self.range_of(letter);
        self.ordered()
            .position(key_of(code(letter), a, b, c), start, end)
    }

    /// The first record of which the key is not below this one.
    pub fn first_from(&self, letter: Letter, a: u8, b: u8, c: u8) -> Option<Record>
        ensures { result ≡ from_key (sheet_in self.now) letter a b c }
    {
        self.record(self.position_of(letter, a, b, c))
    }

    /// The record with this key.
    pub fn find(&self, letter: Letter, a: u8, b: u8, c: u8) -> Option<Record>
        ensures { result ≡ by_key (sheet_in self.now) letter a b c }
    {
        let record = self.first_from(letter, a, b, c)?;
        record.has_key(letter, a, b, c).then_some(record)
    }

    /// The record `n` behind the first of a letter, if it has the letter too.
    pub fn numbered(&self, letter: Letter, n: u8) -> Option<Record>
        ensures { result ≡ by_count (sheet_in self.now) letter n }
    {
        let Range { start, end } = self.range_of(letter);
        record_at(&self.rows()[..end], start + n as usize)
    }
}
