//! A plan as a source: the lexer, the keyword layer over it, and the limit layer over that.
#![tactic(auto)]

ghost use Rattle.std.specs.Prelude.{◌≡◌, ◌++◌, Some, IfOk, MatchResult, Ok as Good, Err as Bad};
ghost use Rattle.syntax.specs.Told.{number_at_place};
ghost use Rattle.keywords.specs.Listing.{listing};
ghost use Rattle.pile.specs.declared.PileRefusal.TheVariants.{Plan, Word};
ghost use Rattle.pile.specs.Piles.{number as number_of, place as place_of};
ghost use Rattle.pile.specs.Piles.{stream_of, plan_stream, plan_answer, add_all};

use keywords::{Keyword, KeywordRefusal, Keywords};
use lexer::{Lexer, PlanRefusal};
use limit::Limit;
use source::Source;
use std::fmt;

/// The bytes of a plan, what keywords there are in it, and how many of its tokens are read at most.
#[derive(Clone, Copy)]
pub struct Plan<'p, 'w> {
    pub text: &'p [u8],
    pub words: &'w [Keyword],
    pub limit: u64,
}

impl<'p> Plan<'p, '_> {
    /// The tokens of the plan: the lexer is layer 0, the keywords are layer 1, the limit is layer 2. The keywords are
    /// copied, so that their list may go while the tokens are read.
    pub fn open(self) -> Result<Limit<Keywords<Lexer<'p>>>, PileRefusal>
        ensures answer { MatchResult result
            (λ _. plan_answer self.entry ≡ Good tt)
            (λ refusal. plan_answer self.entry ≡ Bad refusal) }
        ensures stream { IfOk result (λ source. stream_of source ≡ plan_stream self.entry) }
    {
        let mut keywords = Keywords::new(Lexer::new(self.text)?);
        add_all(&mut keywords, self.words)?;
        Ok(Limit::new(keywords, self.limit))
    }
}

/// Why a plan is not read at all: it is too long, or a keyword cannot be listed.
#[derive(Clone, Copy, PartialEq, Eq, Debug)]
pub enum PileRefusal {
    Plan(PlanRefusal),
    Word(KeywordRefusal),
}

impl From<PlanRefusal> for PileRefusal {
    ghost from_gives = { λ e r. r ≡ Plan e };

    fn from(refusal: PlanRefusal) -> PileRefusal {
        PileRefusal::Plan(refusal)
    }
}

impl From<KeywordRefusal> for PileRefusal {
    ghost from_gives = { λ e r. r ≡ Word e };

    fn from(refusal: KeywordRefusal) -> PileRefusal {
        PileRefusal::Word(refusal)
    }
}

impl PileRefusal {
    pub fn number(self) -> u8
        ensures { result ≡ number_of self }
    {
        match self {
            PileRefusal::Plan(refusal) => refusal.number(),
            PileRefusal::Word(refusal) => refusal.number(),
        }
    }

    pub fn place(self) -> u32
        ensures { result ≡ place_of self }
    {
        match self {
            PileRefusal::Plan(refusal) => refusal.place(),
            PileRefusal::Word(refusal) => refusal.place(),
        }
    }
}

/// Its number and its place, as in `14 at 0`.
impl fmt::Display for PileRefusal {
    ghost output = { λ f. Some (number_at_place (number_of f) (place_of f)) };

    fn fmt<W: fmt::Write>(&self, f: &mut fmt::Formatter<W>) -> fmt::Result {
        write!(f, "{} at {}", self.number(), self.place())
    }
}

/// Lists keywords one by one, up to the first that is refused.
pub fn add_all<S: Source>(
    keywords: &mut Keywords<S>,
    words: &[Keyword],
) -> Result<(), KeywordRefusal>
    ensures answer { result ≡ add_all (listing keywords.old.words) words.now }
    ensures listed { IfOk result (λ _.
        listing keywords.new.words ≡ listing keywords.old.words ++ words.now) }
    ensures below { keywords.new.below ≡ keywords.old.below }
{
    for word in words {
        keywords.add(*word)?;
    }
    Ok(())
}
