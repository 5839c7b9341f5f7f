ghost use Rattle.std.specs.Prelude.{◌≡◌, ◌<◌, ◌≤◌, length, slice_index};
ghost use Rattle.lexing.specs.Plans.{is_blank, is_letter, is_digit, mark_kind, run, spelled, token};
ghost use Rattle.lexing.specs.Plans.{word as word_of, numeral as numeral_of, item as item_of};

use source::{BOTTOM, SourceFault};
use syntax::{NUMBER, Token, WORD};

// How many blanks come first.
pub(crate) fn blanks(rest: &[u8]) -> usize
    ensures value { result ≡ length (run is_blank rest.now) }
    ensures within { result ≤ length rest.now }
{
    rest.iter().take_while(|byte| is_blank(**byte)).count()
}

fn is_blank(byte: u8) -> bool
    ensures { result ≡ is_blank byte }
{
    matches!(byte, b'\n' | b' ')
}

// The item that comes first: a longest run of letters or of digits, or a character that is a token of its own.
pub(crate) fn item(rest: &[u8], place: u32) -> Result<Token, SourceFault>
    requires { (0 < length rest.now) × (length rest.now ≤ 65535) }
    ensures { result ≡ item_of place (slice_index rest.now 0) rest.now }
{
    let first = rest[0];
    match first as char {
        'a'..='z' => word(rest, place),
        '0'..='9' => numeral(rest, place),
        _ => match mark_kind(first) {
            Some(kind) => Ok(token(kind, place, 1, 0)),
            None => Err(SourceFault::UnknownByte {
                place,
                layer: BOTTOM,
            }),
        },
    }
}

// The kind of a character that is a token of its own.
fn mark_kind(byte: u8) -> Option<u8>
    ensures { result ≡ mark_kind byte }
{
    match byte as char {
        '+' => Some(3),
        '-' => Some(4),
        '*' => Some(5),
        '/' => Some(6),
        '(' => Some(7),
        ')' => Some(8),
        ',' => Some(9),
        ';' => Some(10),
        ':' => Some(11),
        '=' => Some(12),
        '<' => Some(13),
        '>' => Some(14),
        '{' => Some(15),
        '}' => Some(16),
        _ => None,
    }
}

// The word that comes first. The ninth letter is a fault, so that no run is longer than that to look at.
fn word(rest: &[u8], place: u32) -> Result<Token, SourceFault>
    ensures { result ≡ word_of place (run is_letter rest.now) }
{
    let mut value: u64 = 0;
    for (length, byte) in rest.iter().enumerate() {
        if !byte.is_ascii_lowercase() {
            return Ok(token(WORD, place, length as u32, value));
        }
        if length == 8 {
            return Err(SourceFault::LongWord {
                place,
                layer: BOTTOM,
            });
        }
        value = value * 256 + u64::from(*byte);
    }
    Ok(token(WORD, place, rest.len() as u32, value))
}

// The number that comes first.
fn numeral(rest: &[u8], place: u32) -> Result<Token, SourceFault>
    requires { length rest.now ≤ 65535 }
    ensures { result ≡ numeral_of place (run is_digit rest.now) }
{
    let mut value: u64 = 0;
    for (length, byte) in rest.iter().enumerate() {
        if !byte.is_ascii_digit() {
            return Ok(token(NUMBER, place, length as u32, value));
        }
        value = value * 10 + u64::from(*byte - b'0');
        if value > 4_294_967_295 {
            return Err(SourceFault::LargeNumber {
                place,
                layer: BOTTOM,
            });
        }
    }
    Ok(token(NUMBER, place, rest.len() as u32, value))
}

fn token(kind: u8, place: u32, length: u32, value: u64) -> Token
    ensures { result ≡ token kind place length value }
{
    Token {
        kind,
        place,
        length,
        value,
    }
}

// The number that letters stand for: their codes in base 256.
pub(crate) fn spelled(letters: &[u8]) -> u64
    requires { length letters.now ≤ 8 }
    ensures { result ≡ spelled letters.now }
{
    let mut value = 0;
    for letter in letters {
        value = value * 256 + u64::from(*letter);
    }
    value
}
