//! The checking of a sheet.
ghost use Rattle.std.specs.Prelude.{◌≡◌, ℕ, Some, None, IfOk, IfErr};
ghost use Rattle.layout.specs.Records.{sheet};
ghost use Rattle.layout.specs.Refusals.{answered, held};
ghost use Rattle.layout.specs.Practice.{practice_bytes};
ghost use Rattle.layout.specs.Checking.{verdict as verdict_on};
ghost use Rattle.sheet.specs.Contents.{contents as bytes_in};
ghost use Rattle.checker.specs.Contents.{contents};
ghost use Rattle.checker.specs.Judged.{answer_of, Exact, Told};

use crate::checked::CheckedSheet;
use crate::conditions::{check_completeness, check_safety};
use layout::Refusal;
use sheet::RawSheet;

impl<'a> CheckedSheet<'a> {
    /// The practice sheet: something that a place can hold before another sheet is checked.
    pub fn practice() -> CheckedSheet<'a>
        ensures { contents result ≡ practice_bytes }
    {
        CheckedSheet {
            raw: RawSheet::practice(),
        }
    }

    /// The sheet that `bytes` hold, if they meet every condition, or the first that they fail.
    pub fn from_bytes(bytes: &'a [u8]) -> Result<CheckedSheet<'a>, Refusal>
        ensures ok { IfOk result (λ s. (verdict_on (sheet bytes.now) ≡ None) × (contents s ≡ bytes.now)) }
        ensures err { IfErr result (λ x. verdict_on (sheet bytes.now) ≡ Some x) }
        ensures exact { Exact (answer_of result) bytes.now }
        ensures told { Told (answer_of result) bytes.now }
    {
        let raw = RawSheet::from_bytes(bytes)?;
        check_safety(&raw)?;
        check_completeness(&raw)?;
        Ok(CheckedSheet { raw })
    }

    /// Puts `bytes` into a place that holds a checked sheet, if they meet every condition; else the place stays as it is.
    pub fn check(place: &mut CheckedSheet<'a>, bytes: &'a [u8]) -> Result<(), Refusal>
        ensures answer { result ≡ answered (verdict_on (sheet bytes.now)) }
        ensures place { contents place.new ≡ held result bytes.now (contents place.old) }
        ensures exact { Exact result bytes.now }
        ensures told { Told result bytes.now }
    {
        *place = CheckedSheet::from_bytes(bytes)?;
        Ok(())
    }

    pub fn bytes(&self) -> &'a [u8]
        ensures { result.now ≡ contents self.now }
    {
        self.raw.bytes()
    }

    /// The same sheet with nothing said of its conditions.
    pub fn raw(&self) -> RawSheet<'a>
        ensures { bytes_in result ≡ contents self.now }
    {
        self.raw
    }
}

/// What is refused of these bytes, if anything is.
pub fn verdict(bytes: &[u8]) -> Result<(), Refusal>
    ensures { result ≡ answered (verdict_on (sheet bytes.now)) }
{
    CheckedSheet::from_bytes(bytes)?;
    Ok(())
}
