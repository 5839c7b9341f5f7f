ghost use Rattle.std.specs.Prelude.{◌≡◌, Some};
ghost use Rattle.syntax.specs.Told.{number_at_place};
ghost use Rattle.lexer.specs.Opening.{number as number_of, place as place_of};

use std::fmt;

/// Why a plan is not opened: it has more than 65,535 bytes.
#[derive(Clone, Copy, PartialEq, Eq, Debug)]
pub enum PlanRefusal {
    TooLong,
}

impl PlanRefusal {
    pub fn number(self) -> u8
        ensures { result ≡ number_of self }
    {
        match self {
            PlanRefusal::TooLong => 8,
        }
    }

    pub fn place(self) -> u32
        ensures { result ≡ place_of self }
    {
        match self {
            PlanRefusal::TooLong => 0,
        }
    }
}

/// Its number and its place, as in `8 at 0`.
impl fmt::Display for PlanRefusal {
    ghost output = { λ f. Some (number_at_place (number_of f) (place_of f)) };

    fn fmt<W: fmt::Write>(&self, f: &mut fmt::Formatter<W>) -> fmt::Result {
        write!(f, "{} at {}", self.number(), self.place())
    }
}
