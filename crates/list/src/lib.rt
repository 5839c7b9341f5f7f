//! A source that gives the tokens of a caller's list.
#![tactic(auto)]

ghost use Rattle.std.specs.Prelude.{◌≡◌, true, []};
ghost use Rattle.streams.specs.Listed.{listed, all_fit, first_out};
ghost use Rattle.list.specs.Opening.{open_answer, open_after};

pub use refusal::KindOutOfRange;
use source::{Layered, Source, SourceFault};
use streams::is_kind;
use syntax::Token;

mod refusal;

/// The tokens of a slice that are still to come. All of them have kinds of 1 to 31.
#[derive(Drop)]
pub struct ListSource<'a> {
    tokens: &'a [Token],
    ghost kinds: { all_fit tokens.now ≡ true },
}

impl<'a> ListSource<'a> {
    ghost use Rattle.list.specs.Tokens.{stream, Opened};

    /// A source of all tokens of a list, unless one has a kind that no token has.
    #[tactic(auto, using(streams::proofs::Kinding::all_fit_from))]
    pub fn new(tokens: &'a [Token]) -> Result<ListSource<'a>, KindOutOfRange>
        ensures { Opened tokens.now result }
    {
        match first_out_of_range(tokens) {
            Some(index) => Err(KindOutOfRange {
                index: index as u64,
            }),
            None => Ok(ListSource { tokens }),
        }
    }

    /// A source with no token.
    pub fn empty() -> ListSource<'a>
        ensures { stream result ≡ listed [] }
    {
        ListSource { tokens: &[] }
    }

    /// Turns to all tokens of a list, or refuses it and stays as it is.
    pub fn open(&mut self, tokens: &'a [Token]) -> Result<(), KindOutOfRange>
        ensures answer { result ≡ open_answer tokens.now }
        ensures after { stream self.new ≡ open_after tokens.now (stream self.old) }
    {
        *self = ListSource::new(tokens)?;
        Ok(())
    }
}

// The index of the first token with a kind that is not 1 to 31.
fn first_out_of_range(tokens: &[Token]) -> Option<usize>
    ensures { result ≡ first_out tokens.now }
{
    tokens.iter().position(|token| !is_kind(token.kind))
}

impl Layered for ListSource<'_> {
    ghost layer = { 0 };

    fn layer_number() -> u8
        ensures { result ≡ 0 }
    {
        source::BOTTOM
    }
}

impl Source for ListSource<'_> {
    ghost use Rattle.list.specs.Tokens.{stream, stream_kinded};

    ghost meaning = { stream };

    ghost kinded = { stream_kinded };

    fn peek(&mut self) -> Result<Option<Token>, SourceFault> {
        Ok(self.tokens.first().copied())
    }

    fn take(&mut self) -> Result<Option<Token>, SourceFault> {
        Ok(self.tokens.split_off_first().copied())
    }
}
