//! A checked sheet: bytes of which nothing is refused.
ghost use Rattle.std.specs.Prelude.{◌≡◌, false, is_some};
ghost use Rattle.layout.specs.Checking.{verdict};
ghost use Rattle.sheet.specs.Contents.{sheet_in};

use sheet::RawSheet;

/// The bytes of a sheet that meets every condition, which are only lent: there is no checked sheet that fails one.
#[derive(Clone, Copy)]
pub struct CheckedSheet<'a> {
    pub(crate) raw: RawSheet<'a>,
    ghost checked: { is_some (verdict (sheet_in raw)) ≡ false },
}
