//! What a reading answers: how it stands, why it halted, which calls it declined.
#![tactic(auto)]

ghost use Rattle.std.specs.Prelude.{◌≡◌, Some};
ghost use Rattle.outcome.specs.declared.Halt.TheVariants.{Source as from_source, Sink as from_sink};
ghost use Rattle.outcome.specs.Numbers.{of_halt, of_declined, place_of, ended};
ghost use Rattle.outcome.specs.Words.{notice_words, outcome_words};

use sink::SinkFault;
use source::SourceFault;
use std::fmt;
use table::Slip;

/// Why a reading could not go on: the fault of its source or its sink, a cell more than there are, or a slip, which no
/// checked table makes.
#[derive(Clone, Copy, PartialEq, Eq, Debug)]
pub enum Halt {
    Source(SourceFault),
    Sink(SinkFault),
    Cells { steps: u64 },
    Slip(Slip),
}

impl From<SourceFault> for Halt {
    ghost from_gives = { λ f r. r ≡ from_source f };

    fn from(cause: SourceFault) -> Halt {
        Halt::Source(cause)
    }
}

impl From<SinkFault> for Halt {
    ghost from_gives = { λ f r. r ≡ from_sink f };

    fn from(cause: SinkFault) -> Halt {
        Halt::Sink(cause)
    }
}

impl Halt {
    /// The number of the refusal.
    pub fn number(self) -> u8
        ensures { result ≡ (of_halt self).number }
    {
        match self {
            Halt::Source(fault) => fault.number(),
            Halt::Sink(fault) => fault.number(),
            Halt::Cells { .. } => 22,
            Halt::Slip(_) => 25,
        }
    }

    /// Where it was met: a place in the plan, a count of steps or of trees, or the slip's own number.
    pub fn place(self) -> u64
        ensures { result ≡ (of_halt self).place }
    {
        match self {
            Halt::Source(fault) => u64::from(fault.place()),
            Halt::Sink(fault) => fault.place(),
            Halt::Cells { steps } => steps,
            Halt::Slip(slip) => u64::from(slip.number()),
        }
    }

    /// The layer of a source that tells its fault.
    pub fn layer(self) -> Option<u8>
        ensures { result ≡ (of_halt self).layer }
    {
        match self {
            Halt::Source(fault) => Some(fault.layer()),
            _ => None,
        }
    }
}

/// Its number and its place, and behind a source's fault the layer, as in `9 at 3 layer 0`.
impl fmt::Display for Halt {
    ghost output = { λ h. Some (notice_words (of_halt h)) };

    fn fmt<W: fmt::Write>(&self, f: &mut fmt::Formatter<W>) -> fmt::Result {
        write!(f, "{} at {}", self.number(), self.place())?;
        match self.layer() {
            Some(layer) => write!(f, " layer {layer}"),
            None => Ok(()),
        }
    }
}

/// How a reading stands. A rejection is at the refused token's place, at none where the end of the plan was refused.
#[derive(Clone, Copy, PartialEq, Eq, Debug)]
pub enum Outcome {
    More,
    Accepted,
    Rejected { at: Option<u32> },
    Halted(Halt),
    Stopped,
}

impl Outcome {
    /// Whether no further step will be made.
    pub fn has_ended(self) -> bool
        ensures { result ≡ ended self }
    {
        match self {
            Outcome::More => false,
            _ => true,
        }
    }

    /// Where the reading was rejected or halted.
    pub fn place(self) -> Option<u64>
        ensures { result ≡ place_of self }
    {
        match self {
            Outcome::Rejected { at: Some(place) } => Some(u64::from(place)),
            Outcome::Halted(halt) => Some(halt.place()),
            _ => None,
        }
    }
}

/// As the record of a reading tells it: `rejected at 3`, `halted 9 at 3 layer 0`.
impl fmt::Display for Outcome {
    ghost output = { λ o. Some (outcome_words o) };

    fn fmt<W: fmt::Write>(&self, f: &mut fmt::Formatter<W>) -> fmt::Result {
        match self {
            Outcome::More => write!(f, "more"),
            Outcome::Accepted => write!(f, "accepted"),
            Outcome::Rejected { at: Some(place) } => write!(f, "rejected at {place}"),
            Outcome::Rejected { at: None } => write!(f, "rejected at the end"),
            Outcome::Halted(halt) => write!(f, "halted {halt}"),
            Outcome::Stopped => write!(f, "stopped"),
        }
    }
}

/// Why a call was declined, with the steps made so far: the reading has ended, the turn could bring the steps above
/// their limit, or a mark was asked for before the end.
#[derive(Clone, Copy, PartialEq, Eq, Debug)]
pub enum Declined {
    Ended { steps: u64 },
    TooManySteps { steps: u64 },
    BeforeEnd { steps: u64 },
}

impl Declined {
    /// The number of the refusal.
    pub fn number(self) -> u8
        ensures { result ≡ (of_declined self).number }
    {
        match self {
            Declined::Ended { .. } => 21,
            Declined::TooManySteps { .. } => 19,
            Declined::BeforeEnd { .. } => 26,
        }
    }

    /// The steps made so far.
    pub fn place(self) -> u64
        ensures { result ≡ (of_declined self).place }
    {
        match self {
            Declined::Ended { steps }
            | Declined::TooManySteps { steps }
            | Declined::BeforeEnd { steps } => steps,
        }
    }
}

/// Its number and its place, as in `21 at 5`.
impl fmt::Display for Declined {
    ghost output = { λ d. Some (notice_words (of_declined d)) };

    fn fmt<W: fmt::Write>(&self, f: &mut fmt::Formatter<W>) -> fmt::Result {
        write!(f, "{} at {}", self.number(), self.place())
    }
}

/// What can be asked of a reading, any of them at any time.
#[derive(Clone, Copy, PartialEq, Eq, Debug)]
pub enum Call {
    Turn(u16),
    Report,
    Stop,
    Mark,
}

/// What a reading tells of itself: its outcome and all the steps made since it was new.
#[derive(Clone, Copy, PartialEq, Eq, Debug)]
pub struct Report {
    pub outcome: Outcome,
    pub steps: u64,
}
