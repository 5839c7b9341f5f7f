//! One record of a sheet as a value: its key, its fields, its payload.
#![tactic(auto)]

ghost use Rattle.std.specs.Prelude.{◌≡◌, ℕ, ◌+◌, ◌*◌, ◌<◌, ◌≤◌};
ghost use Rattle.layout.specs.Records.{sixteen, at, code as code_of, letter as letter_in, key_of};
ghost use Rattle.layout.specs.Records.{key as key_in, has_key, payload as payload_in, member as member_of};
ghost use Rattle.layout.specs.Records.{symbol as symbol_of, maybe_symbol, action_in};
ghost use Rattle.records.specs.Parts.{head_in, symbol_in};

use layout::Letter;
use syntax::{Production, Symbol};
use table::{Action, LONGEST};

mod range;

/// The length of a record.
pub const WIDTH: usize = 16;

/// The symbol byte that stands for none.
pub const NO_SYMBOL: u8 = 255;

/// Bytes 0 to 3 are the key (a letter, up to three numbers), 4 to 7 the fields, 8 to 15 the payload. What a method says
/// of a record with another letter, or out of range, follows from the same bytes.
#[derive(Clone, Copy)]
pub struct Record {
    pub bytes: [u8; WIDTH],
}

impl From<[u8; WIDTH]> for Record {
    ghost from_gives = { λ bytes r. r ≡ record { bytes = bytes } };

    fn from(bytes: [u8; WIDTH]) -> Record {
        Record { bytes }
    }
}

/// The byte of a letter: a match, so that a letter that is added later cannot be left out.
pub fn code(letter: Letter) -> u8
    ensures { result ≡ code_of letter }
{
    match letter {
        Letter::A => b'A',
        Letter::D => b'D',
        Letter::G => b'G',
        Letter::I => b'I',
        Letter::K => b'K',
        Letter::N => b'N',
        Letter::P => b'P',
        Letter::S => b'S',
    }
}

/// The key with these bytes as one number, by which records are in order.
pub fn key_of(l: u8, a: u8, b: u8, c: u8) -> u32
    ensures { result ≡ key_of l a b c }
{
    u32::from_be_bytes([l, a, b, c])
}

/// The symbol that a byte stands for, if it stands for one.
fn symbol_of(b: u8) -> Symbol
    ensures { result ≡ symbol_of b }
{
    if b < 64 {
        Symbol::Terminal(b)
    } else {
        Symbol::Nonterminal(b - 64)
    }
}

impl Record {
    pub fn letter(self) -> Option<Letter>
        ensures { result ≡ letter_in self.bytes }
    {
        // The letters stand here as the sheet format writes them.
        match self.bytes[0] as char {
            'A' => Some(Letter::A),
            'D' => Some(Letter::D),
            'G' => Some(Letter::G),
            'I' => Some(Letter::I),
            'K' => Some(Letter::K),
            'N' => Some(Letter::N),
            'P' => Some(Letter::P),
            'S' => Some(Letter::S),
            _ => None,
        }
    }

    /// The whole key as one number, by which records are in order.
    #[tactic(auto, unfolding(layout::specs::Records::key))]
    pub fn key(self) -> u32
        ensures { result ≡ key_in self.bytes }
    {
        let [l, a, b, c, ..] = self.bytes;
        key_of(l, a, b, c)
    }

    pub fn has_key(self, letter: Letter, a: u8, b: u8, c: u8) -> bool
        ensures { result ≡ has_key letter a b c self.bytes }
    {
        // Byte by byte, which is faster at each look-up than to compare slices.
        (self.bytes[0] == code(letter) && self.bytes[1] == a)
            && (self.bytes[2] == b && self.bytes[3] == c)
    }

    /// The first number of the key.
    pub fn first(self) -> u8
        ensures { result ≡ at self.bytes 1 }
    {
        self.bytes[1]
    }

    pub fn second(self) -> u8
        ensures { result ≡ at self.bytes 2 }
    {
        self.bytes[2]
    }

    pub fn third(self) -> u8
        ensures { result ≡ at self.bytes 3 }
    {
        self.bytes[3]
    }

    /// The first field.
    pub fn f1(self) -> u8
        ensures { result ≡ at self.bytes 4 }
    {
        self.bytes[4]
    }

    pub fn f2(self) -> u8
        ensures { result ≡ at self.bytes 5 }
    {
        self.bytes[5]
    }

    /// The payload as a set.
    #[tactic(auto, unfolding(layout::specs::Records::payload))]
    pub fn payload(self) -> u64
        ensures { result ≡ payload_in sixteen self.bytes }
    {
        let mut payload = [0; 8];
        payload.copy_from_slice(&self.bytes[8..]);
        u64::from_be_bytes(payload)
    }

    /// The action of an A record.
    pub fn action(self) -> Action
        ensures { result ≡ action_in self.bytes }
    {
        match self.f1() {
            1 => Action::Shift(self.f2()),
            2 => Action::Reduce(self.f2()),
            _ => Action::Accept,
        }
    }

    /// The incoming symbol of an S record.
    pub fn incoming(self) -> Option<Symbol>
        ensures { result ≡ maybe_symbol (at self.bytes 4) }
    {
        match self.f1() {
            NO_SYMBOL => None,
            b => Some(symbol_of(b)),
        }
    }

    /// Left side and length of a P record.
    pub fn production(self) -> Production
        ensures { result ≡ head_in self.bytes }
    {
        Production {
            left: self.f1(),
            length: self.f2(),
        }
    }

    /// Symbol `k` of a P or an S record, counted from 0; none beyond its length, or beyond the payload.
    pub fn symbol(self, k: u8) -> Option<Symbol>
        ensures { result ≡ symbol_in self.bytes k }
    {
        if k < self.f2() && k < LONGEST {
            Some(symbol_of(self.bytes[8 + k as usize]))
        } else {
            None
        }
    }
}
