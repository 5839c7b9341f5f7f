ghost use Rattle.std.specs.Prelude.{◌≡◌, true, []};
ghost use Rattle.streams.specs.Rekinded.{kind_of, rekind, is_listed, all_kinds};
ghost use Rattle.keywords.specs.Adding.{add_answer, added};

use crate::refusal::KeywordRefusal;
use arrayvec::ArrayVec;
use streams::{Keyword, is_kind};
use syntax::{Token, WORD};

// Up to 16 keywords, in the order in which they were listed.
#[derive(Drop)]
pub(crate) struct Words {
    list: ArrayVec<Keyword, 16>,
    ghost kinds: { all_kinds list.items ≡ true },
}

impl Words {
    pub(crate) fn none() -> Words
        ensures { result.list.items ≡ [] }
    {
        Words {
            list: ArrayVec::new(),
        }
    }

    // Lists a keyword, or refuses it and changes nothing.
    pub(crate) fn add(&mut self, keyword: Keyword) -> Result<(), KeywordRefusal>
        ensures answer { result ≡ add_answer self.old.list.items keyword }
        ensures after { self.new.list.items ≡ added self.old.list.items keyword }
    {
        if !is_kind(keyword.kind) {
            return Err(KeywordRefusal::KindOutOfRange);
        }
        if keyword.spelling == 0 {
            return Err(KeywordRefusal::NoSpelling);
        }
        if self.is_listed(keyword.spelling) {
            return Err(KeywordRefusal::AlreadyListed);
        }
        self.list
            .try_push(keyword)
            .map_err(|_| KeywordRefusal::NoRoom)
    }

    // The token with the kind that it has among the keywords.
    pub(crate) fn rekind(&self, token: Token) -> Token
        ensures { result ≡ rekind self.now.list.items token }
    {
        if token.kind != WORD {
            return token;
        }
        Token {
            kind: self.kind_of(token.value),
            ..token
        }
    }

    // Whether one of the keywords has this spelling.
    fn is_listed(&self, spelling: u64) -> bool
        ensures { result ≡ is_listed self.now.list.items spelling }
    {
        self.list.iter().any(|word| word.spelling == spelling)
    }

    // The kind of a word with this value.
    fn kind_of(&self, value: u64) -> u8
        ensures { result ≡ kind_of self.now.list.items value }
    {
        self.list
            .iter()
            .find(|word| word.spelling == value)
            .map_or(WORD, |word| word.kind)
    }
}
