//! The opening of a sheet.
ghost use Rattle.std.specs.Prelude.{◌≡◌, ℕ, Some, None, length, IfOk, IfErr};
ghost use Rattle.layout.specs.Records.{sheet, count as count_of};
ghost use Rattle.layout.specs.Refusals.{answered, held};
ghost use Rattle.layout.specs.Practice.{practice_bytes};
ghost use Rattle.layout.specs.Opening.{opening};
ghost use Rattle.sorted.specs.Contents.{rows_in};
ghost use Rattle.sorted.specs.Found.{by_place};
ghost use Rattle.sheet.specs.Contents.{contents, sheet_in};

use crate::raw::RawSheet;
use layout::Refusal;
use naming::{check_names, check_sense};
use records::{Record, WIDTH};
use sorted::SortedSheet;

impl<'a> RawSheet<'a> {
    /// The practice sheet: something that a place can hold before another sheet is opened.
    pub fn practice() -> RawSheet<'a>
        ensures { contents result ≡ practice_bytes }
    {
        RawSheet {
            sorted: SortedSheet::practice(),
        }
    }

    /// The sheet that `bytes` hold, or why they hold none.
    pub fn from_bytes(bytes: &'a [u8]) -> Result<RawSheet<'a>, Refusal>
        ensures ok { IfOk result (λ s. (opening (sheet bytes.now) ≡ None) × (contents s ≡ bytes.now)) }
        ensures err { IfErr result (λ x. opening (sheet bytes.now) ≡ Some x) }
    {
        let sorted = SortedSheet::from_bytes(bytes)?;
        check_names(&sorted)?;
        check_sense(&sorted)?;
        Ok(RawSheet { sorted })
    }

    /// Puts `bytes` into a place that holds a raw sheet, if they are one; else the place stays as it is.
    pub fn open(place: &mut RawSheet<'a>, bytes: &'a [u8]) -> Result<(), Refusal>
        ensures answer { result ≡ answered (opening (sheet bytes.now)) }
        ensures place { contents place.new ≡ held result bytes.now (contents place.old) }
    {
        *place = RawSheet::from_bytes(bytes)?;
        Ok(())
    }

    pub fn bytes(&self) -> &'a [u8]
        ensures { result.now ≡ contents self.now }
    {
        self.sorted.bytes()
    }

    /// The bytes of each record, which `Record::from` takes.
    pub fn rows(&self) -> &'a [[u8; WIDTH]]
        ensures rows { result.now ≡ rows_in (sheet_in self.now) }
        ensures count { length result.now ≡ count_of (sheet_in self.now) }
    {
        self.sorted.rows()
    }

    /// How many records the sheet has.
    pub fn records(&self) -> usize
        ensures { result ≡ count_of (sheet_in self.now) }
    {
        self.sorted.records()
    }

    /// Record `i`, counted from 0.
    pub fn record(&self, i: usize) -> Option<Record>
        ensures { result ≡ by_place (sheet_in self.now) i }
    {
        self.sorted.record(i)
    }
}
