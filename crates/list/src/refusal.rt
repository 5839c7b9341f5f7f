ghost use Rattle.std.specs.Prelude.{◌≡◌, Some};
ghost use Rattle.syntax.specs.Told.{number_at_place};
ghost use Rattle.list.specs.Opening.{number as number_of, place as place_of};

use std::fmt;

/// Why a list of tokens is not opened: the token at this index has a kind that is not 1 to 31.
#[derive(Clone, Copy, PartialEq, Eq, Debug)]
pub struct KindOutOfRange {
    pub index: u64,
}

impl KindOutOfRange {
    pub fn number(self) -> u8
        ensures { result ≡ number_of self }
    {
        12
    }

    pub fn place(self) -> u64
        ensures { result ≡ place_of self }
    {
        self.index
    }
}

/// Its number and its place, with `at` between them.
impl fmt::Display for KindOutOfRange {
    ghost output = { λ f. Some (number_at_place (number_of f) (place_of f)) };

    fn fmt<W: fmt::Write>(&self, f: &mut fmt::Formatter<W>) -> fmt::Result {
        write!(f, "{} at {}", self.number(), self.place())
    }
}
