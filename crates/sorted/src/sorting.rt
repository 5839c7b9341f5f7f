//! The passes over records one by one: length, order, range.
ghost use Rattle.std.specs.Prelude.{◌≡◌, ◌≤◌, true, length, nat_lt, IfOk, MatchResult};
ghost use Rattle.layout.specs.Choices.{given};
ghost use Rattle.layout.specs.Records.{sheet};
ghost use Rattle.layout.specs.Refusals.{answered, held};
ghost use Rattle.layout.specs.Practice.{practice_bytes};
ghost use Rattle.layout.specs.Opening.{length_fits, length_found, records_found, sorting};
ghost use Rattle.sorted.specs.Contents.{contents};

use crate::held::SortedSheet;
use crate::ordered::Ordered;
use crate::practice::PRACTICE;
use crate::rows::rows_of;
use layout::Refusal;
use records::{Record, WIDTH};

/// How many bytes a sheet has at most.
const MOST_BYTES: usize = 65_520;

fn length_fits(bytes: &[u8]) -> bool
    ensures { result ≡ length_fits (sheet bytes.now) }
{
    let n = bytes.len();
    (n != 0 && n % WIDTH == 0) && n <= MOST_BYTES
}

fn check_length(bytes: &[u8]) -> Result<(), Refusal>
    ensures { result ≡ answered (length_found (sheet bytes.now)) }
{
    if length_fits(bytes) {
        Ok(())
    } else {
        Err(Refusal::Length)
    }
}

/// A key is above the one before it, if there is one.
fn rises(before: Option<u32>, key: u32) -> bool
    ensures { result ≡ given true (λ b. nat_lt b key) before }
{
    before.is_none_or(|before| before < key)
}

/// Order and range, record by record.
fn check_records(bytes: &[u8]) -> Result<(), Refusal>
    requires { length bytes.now ≤ 65520 }
    ensures { result ≡ answered (records_found (sheet bytes.now)) }
{
    let mut before = None;
    let rows = rows_of(bytes);
    for (i, row) in rows.iter().enumerate() {
        let record = Record::from(*row);
        if !rises(before, record.key()) {
            return Err(Refusal::Order { record: i as u32 });
        }
        if !record.in_range() {
            return Err(Refusal::Range { record: i as u32 });
        }
        before = Some(record.key());
    }
    Ok(())
}

fn inspect(bytes: &[u8]) -> Result<(), Refusal>
    ensures { result ≡ answered (sorting (sheet bytes.now)) }
{
    check_length(bytes)?;
    check_records(bytes)
}

impl<'a> Ordered<'a> {
    /// The sheet, with the places of its letters.
    fn located(self) -> SortedSheet<'a>
        ensures { contents result ≡ self.entry.bytes.now }
    {
        SortedSheet {
            bytes: self.bytes,
            starts: self.starts(),
        }
    }
}

impl<'a> SortedSheet<'a> {
    /// The practice sheet: something that a place can hold before another sheet is sorted.
    pub fn practice() -> SortedSheet<'a>
        ensures { contents result ≡ practice_bytes }
    {
        Ordered { bytes: PRACTICE }.located()
    }

    /// The sheet with these bytes, if they are sorted.
    pub fn from_bytes(bytes: &'a [u8]) -> Result<SortedSheet<'a>, Refusal>
        ensures answer { MatchResult result (λ s. sorting (sheet bytes.now) ≡ None) (λ x. sorting (sheet bytes.now) ≡ Some x) }
        ensures held { IfOk result (λ s. contents s ≡ bytes.now) }
    {
        inspect(bytes)?;
        Ok(Ordered { bytes }.located())
    }

    /// Puts `bytes` into a place that holds a sorted sheet, if they are one; else the place stays as it is.
    pub fn sort(place: &mut SortedSheet<'a>, bytes: &'a [u8]) -> Result<(), Refusal>
        ensures answer { result ≡ answered (sorting (sheet bytes.now)) }
        ensures place { contents place.new ≡ held result bytes.now (contents place.old) }
    {
        *place = SortedSheet::from_bytes(bytes)?;
        Ok(())
    }
}
