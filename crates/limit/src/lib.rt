//! A layer that lets so many tokens of a source pass, and no further one.
#![tactic(auto)]

ghost use Rattle.std.specs.Prelude.{◌≡◌};
ghost use Rattle.source.specs.Streams.{above};
ghost use Rattle.streams.specs.Limited.{limited};
ghost use Rattle.streams.proofs.Kinding.{limited_kinded};

use source::{Layered, Source, SourceFault};
use syntax::Token;

/// Passes `left` more tokens of the source below. A further one is a fault at its place; END and the faults of the
/// source below come through as they are.
#[derive(Drop)]
pub struct Limit<S: Source> {
    below: S,
    left: u64,
}

impl<S: Source> Limit<S> {
    pub fn new(below: S, left: u64) -> Limit<S>
        ensures below { result.below ≡ below }
        ensures left { result.left ≡ left }
    {
        Limit { below, left }
    }
}

impl<S: Source> Layered for Limit<S> {
    ghost layer = { above S.Layered.layer };

    fn layer_number() -> u8 {
        S::layer_number().saturating_add(1)
    }
}

impl<S: Source> Source for Limit<S> {
    ghost meaning = { λ s. limited (above S.Layered.layer) s.left (S.Source.meaning s.below) };

    ghost kinded = { λ s. limited_kinded s.left (S.Source.meaning s.below) (S.Source.kinded s.below) };

    fn peek(&mut self) -> Result<Option<Token>, SourceFault> {
        match self.below.peek()? {
            Some(token) if self.left == 0 => Err(SourceFault::TooManyTokens {
                place: token.place,
                layer: Self::layer_number(),
            }),
            next => Ok(next),
        }
    }

    fn take(&mut self) -> Result<Option<Token>, SourceFault> {
        if self.left == 0 {
            return self.peek();
        }
        let next = self.below.take()?;
        if next.is_some() {
            self.left -= 1;
        }
        Ok(next)
    }
}
