//! Records in key order, in which a key is found by halving.
ghost use Rattle.std.specs.Prelude.{◌≡◌, false, is_some};
ghost use Rattle.layout.specs.Records.{sheet};
ghost use Rattle.layout.specs.Search.{position, start as start_of, starts as starts_of};
ghost use Rattle.layout.specs.Opening.{sorting};
ghost use Rattle.wellformed.proofs.Seeks.{Between};

use crate::rows::{key_in, rows_of};
use layout::Letter;
use records::{code, key_of};

/// The bytes of a sheet that is sorted: what the search for a key needs of it.
#[derive(Clone, Copy)]
pub(crate) struct Ordered<'a> {
    pub(crate) bytes: &'a [u8],
    ghost sorted: { is_some (sorting (sheet bytes.now)) ≡ false },
}

impl<'a> Ordered<'a> {
    /// The first record whose key is not below `k`, where it is known to lie between two records.
    pub(crate) fn position(self, k: u32, from: usize, to: usize) -> usize
        requires { Between (sheet self.bytes.now) k from to }
        ensures { result ≡ position (sheet self.entry.bytes.now) k }
    {
        // A loop by hand: `partition_point` looks at a key or two more, and took half as long again to open a sheet.
        let rows = rows_of(self.bytes);
        let mut low = from;
        let mut high = to;
        while low < high {
            let mid = low + (high - low) / 2;
            if key_in(&rows[mid]) < k {
                low = mid + 1;
            } else {
                high = mid;
            }
        }
        low
    }

    /// Where the records of a letter begin.
    fn start(self, letter: Letter) -> u16
        ensures { result ≡ start_of (sheet self.entry.bytes.now) letter }
    {
        self.position(key_of(code(letter), 0, 0, 0), 0, rows_of(self.bytes).len()) as u16
    }

    /// Where the records of each letter begin, and where the last ones end.
    pub(crate) fn starts(self) -> [u16; 9]
        ensures { result ≡ starts_of (sheet self.entry.bytes.now) }
    {
        // No plainer as a loop: the letters would stand in a table, and the last entry is none of theirs.
        [
            self.start(Letter::A),
            self.start(Letter::D),
            self.start(Letter::G),
            self.start(Letter::I),
            self.start(Letter::K),
            self.start(Letter::N),
            self.start(Letter::P),
            self.start(Letter::S),
            rows_of(self.bytes).len() as u16,
        ]
    }
}
