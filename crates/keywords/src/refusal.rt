ghost use Rattle.std.specs.Prelude.{◌≡◌, Some};
ghost use Rattle.syntax.specs.Told.{number_at_place};
ghost use Rattle.keywords.specs.Adding.{number as number_of, place as place_of};

use std::fmt;

/// Why a keyword is not listed.
#[derive(Clone, Copy, PartialEq, Eq, Debug)]
pub enum KeywordRefusal {
    KindOutOfRange,
    NoSpelling,
    AlreadyListed,
    NoRoom,
}

impl KeywordRefusal {
    pub fn number(self) -> u8
        ensures { result ≡ number_of self }
    {
        match self {
            KeywordRefusal::KindOutOfRange
            | KeywordRefusal::NoSpelling
            | KeywordRefusal::AlreadyListed => 14,
            KeywordRefusal::NoRoom => 20,
        }
    }

    pub fn place(self) -> u32
        ensures { result ≡ place_of self }
    {
        // A keyword does not stand in the plan, so it has no place there.
        0
    }
}

/// Its number and its place, with `at` between them.
impl fmt::Display for KeywordRefusal {
    ghost output = { λ f. Some (number_at_place (number_of f) (place_of f)) };

    fn fmt<W: fmt::Write>(&self, f: &mut fmt::Formatter<W>) -> fmt::Result {
        write!(f, "{} at {}", self.number(), self.place())
    }
}
