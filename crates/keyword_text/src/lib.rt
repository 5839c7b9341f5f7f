//! A keyword as people write it: its spelling, and behind `=` its kind, as in `on=17`.
#![tactic(auto)]

ghost use Rattle.std.specs.Prelude.{◌≡◌};
ghost use Rattle.keyword_text.specs.Written.{IsRead, words};

use lexer::spelling;
use std::error::Error;
use std::fmt;
use std::num::ParseIntError;
use streams::Keyword;

/// Why a text is no keyword.
#[derive(Debug, Drop)]
pub enum KeywordTextError {
    NoEquals,
    NoSpelling,
    Kind(ParseIntError),
}

impl fmt::Display for KeywordTextError {
    ghost output = { words };

    fn fmt<W: fmt::Write>(&self, f: &mut fmt::Formatter<W>) -> fmt::Result {
        match self {
            KeywordTextError::NoEquals => write!(f, "a keyword is SPELLING=KIND"),
            KeywordTextError::NoSpelling => write!(f, "a spelling has 1 to 8 letters a to z"),
            KeywordTextError::Kind(error) => write!(f, "{error}"),
        }
    }
}

impl Error for KeywordTextError {}

/// Reads a keyword. Whether a list of keywords takes it is for the list to say.
pub fn parse_keyword(text: &str) -> Result<Keyword, KeywordTextError>
    ensures { IsRead text.now result }
{
    let (letters, digits) = text.split_once('=').ok_or(KeywordTextError::NoEquals)?;
    let spelling = spelling(letters.as_bytes()).ok_or(KeywordTextError::NoSpelling)?;
    let kind = digits.parse::<u8>().map_err(KeywordTextError::Kind)?;
    Ok(Keyword { spelling, kind })
}
