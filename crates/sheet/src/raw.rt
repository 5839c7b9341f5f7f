//! A raw sheet: bytes in which opening finds nothing.
ghost use Rattle.std.specs.Prelude.{◌≡◌, false, is_some};
ghost use Rattle.layout.specs.Opening.{opening};
ghost use Rattle.sorted.specs.Contents.{sheet_in};

use sorted::SortedSheet;

/// The bytes of a well-formed sheet, which are only lent.
#[derive(Clone, Copy)]
pub struct RawSheet<'a> {
    pub(crate) sorted: SortedSheet<'a>,
    ghost opens: { is_some (opening (sheet_in sorted)) ≡ false },
}
