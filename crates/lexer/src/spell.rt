ghost use Rattle.std.specs.Prelude.{◌≡◌};
ghost use Rattle.lexing.specs.Spelling.{letters, is_word, spelling as spelling_of, Distinct};

use crate::scan::spelled;

/// The value of a word, as the lexer gives it: 1 to 8 letters a to z, in base 256. No other word has it.
pub fn spelling(letters: &[u8]) -> Option<u64>
    ensures value { result ≡ spelling_of letters.now }
    ensures distinct { Distinct letters.now }
{
    if is_word(letters) {
        Some(spelled(letters))
    } else {
        None
    }
}

fn is_word(bytes: &[u8]) -> bool
    ensures { result ≡ is_word bytes.now }
{
    // The length first, so that no long run is looked at.
    matches!(bytes.len(), 1..=8) && are_letters(bytes)
}

fn are_letters(bytes: &[u8]) -> bool
    ensures { result ≡ letters bytes.now }
{
    bytes.iter().all(|byte| byte.is_ascii_lowercase())
}
