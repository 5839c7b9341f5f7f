//! A layer that gives words of listed spellings kinds of their own.
#![tactic(auto)]

ghost use Rattle.std.specs.Prelude.{◌≡◌, []};
ghost use Rattle.source.specs.Streams.{above};
ghost use Rattle.streams.specs.Rekinded.{rekinded};
ghost use Rattle.streams.proofs.Kinding.{rekinded_kinded};
ghost use Rattle.keywords.specs.Adding.{add_answer, added};
ghost use Rattle.keywords.specs.Listing.{listing};

use crate::words::Words;
pub use refusal::KeywordRefusal;
use source::{Layered, Source, SourceFault};
pub use streams::Keyword;
use syntax::Token;

mod refusal;
mod words;

/// The tokens of the source below, where words of up to 16 listed spellings have their listed kinds. Only tokens of
/// kind 1 are looked at.
#[derive(Drop)]
pub struct Keywords<S: Source> {
    below: S,
    words: Words,
}

impl<S: Source> Keywords<S> {
    /// The source below, with no keyword yet.
    pub fn new(below: S) -> Keywords<S>
        ensures below { result.below ≡ below }
        ensures words { listing result.words ≡ [] }
    {
        Keywords {
            below,
            words: Words::none(),
        }
    }

    /// Lists a keyword, or refuses it and changes nothing.
    pub fn add(&mut self, keyword: Keyword) -> Result<(), KeywordRefusal>
        ensures answer { result ≡ add_answer (listing self.old.words) keyword }
        ensures words { listing self.new.words ≡ added (listing self.old.words) keyword }
        ensures below { self.new.below ≡ self.old.below }
    {
        self.words.add(keyword)
    }
}

impl<S: Source> Layered for Keywords<S> {
    ghost layer = { above S.Layered.layer };

    fn layer_number() -> u8 {
        S::layer_number().saturating_add(1)
    }
}

impl<S: Source> Source for Keywords<S> {
    ghost meaning = { λ s. rekinded (listing s.words) (S.Source.meaning s.below) };

    ghost kinded = { λ s.
        rekinded_kinded (listing s.words) (S.Source.meaning s.below) s.words.kinds
        (S.Source.kinded s.below) };

    fn peek(&mut self) -> Result<Option<Token>, SourceFault> {
        let token = self.below.peek()?;
        Ok(token.map(|token| self.words.rekind(token)))
    }

    fn take(&mut self) -> Result<Option<Token>, SourceFault> {
        let token = self.below.take()?;
        Ok(token.map(|token| self.words.rekind(token)))
    }
}
