//! Productions, states and nonterminals are numbered without a gap, so that a number tells the record.
ghost use Rattle.std.specs.Prelude.{◌≡◌, ℕ};
ghost use Rattle.layout.specs.declared.Letter.TheVariants.{N, P, S};
ghost use Rattle.sorted.specs.Found.{by_key};
ghost use Rattle.sheet.specs.Contents.{sheet_in};

use crate::raw::RawSheet;
use layout::Letter;
use records::Record;

impl<'a> RawSheet<'a> {
    pub(crate) fn production_record(&self, p: u8) -> Option<Record>
        ensures { result ≡ by_key (sheet_in self.now) P p 0 0 }
    {
        self.sorted.numbered(Letter::P, p)
    }

    pub(crate) fn state_record(&self, s: u8) -> Option<Record>
        ensures { result ≡ by_key (sheet_in self.now) S s 0 0 }
    {
        self.sorted.numbered(Letter::S, s)
    }

    pub(crate) fn nonterminal_record(&self, n: u8) -> Option<Record>
        ensures { result ≡ by_key (sheet_in self.now) N n 0 0 }
    {
        self.sorted.numbered(Letter::N, n)
    }
}
