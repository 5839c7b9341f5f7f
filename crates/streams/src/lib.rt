//! What layers make of a stream of tokens: the definitions, and the lemmas that the crates of the layers use.
#![tactic(auto)]

ghost use Rattle.std.specs.Prelude.{◌≡◌};
ghost use Rattle.streams.specs.Listed.{is_kind};

/// A spelling, as the value of its words, and the kind that those words get.
#[derive(Clone, Copy, PartialEq, Eq, Debug, Default)]
pub struct Keyword {
    pub spelling: u64,
    pub kind: u8,
}

/// Whether a token can have this kind: 1 to 31.
pub fn is_kind(kind: u8) -> bool
    ensures { result ≡ is_kind kind }
{
    (1..=31).contains(&kind)
}
