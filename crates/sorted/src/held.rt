//! A sorted sheet: bytes in which the first passes of an opening find nothing.
ghost use Rattle.std.specs.Prelude.{◌≡◌, false, is_some};
ghost use Rattle.layout.specs.Records.{sheet};
ghost use Rattle.layout.specs.Search.{starts as starts_of};
ghost use Rattle.layout.specs.Opening.{sorting};

/// The bytes of a sheet that is sorted, which are only lent, and where the records of each letter begin; the last number
/// is where they end.
#[derive(Clone, Copy)]
pub struct SortedSheet<'a> {
    pub(crate) bytes: &'a [u8],
    pub(crate) starts: [u16; 9],
    ghost sorted: { is_some (sorting (sheet bytes.now)) ≡ false },
    ghost located: { starts ≡ starts_of (sheet bytes.now) },
}
