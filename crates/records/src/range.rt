//! Whether the bytes of a record are in range.
ghost use Rattle.std.specs.Prelude.{◌≡◌, ◌==◌};
ghost use Rattle.std.specs.List.{list_all};
ghost use Rattle.layout.specs.declared.Letter.TheVariants.{A as Act, D, G, I, K, N, P, S};
ghost use Rattle.layout.specs.Records.{sixteen};
ghost use Rattle.layout.specs.Opening.{in_range, in_range_of, unused as unused_in, symbol_byte, symbol_bytes};
ghost use Rattle.layout.specs.Opening.{action_bytes};

use crate::{NO_SYMBOL, Record};
use layout::Letter;
use table::{ADDED, DEEPEST, NONTERMINALS, PRODUCTIONS, STATES, TERMINALS};

fn is_symbol(b: u8) -> bool
    ensures { result ≡ symbol_byte b }
{
    (1..TERMINALS).contains(&b) || (64..64 + NONTERMINALS).contains(&b)
}

fn all_symbols(bytes: &[u8]) -> bool
    ensures { result ≡ list_all symbol_byte bytes.now }
{
    bytes.iter().all(|b| is_symbol(*b))
}

fn no_symbols(bytes: &[u8]) -> bool
    ensures { result ≡ list_all (λ b. b == 255) bytes.now }
{
    bytes.iter().all(|b| *b == NO_SYMBOL)
}

/// Shift to a state, reduce by a production, or accept.
fn action_fits(kind: u8, target: u8) -> bool
    ensures { result ≡ action_bytes sixteen kind target }
{
    match kind {
        1 => target < STATES,
        2 => target < PRODUCTIONS,
        3 => target == 0,
        _ => false,
    }
}

impl Record {
    /// Bytes `from` to `to - 1` are zero.
    fn unused(self, from: usize, to: usize) -> bool
        ensures { result ≡ unused_in self.bytes from to }
    {
        self.bytes.iter().take(to).skip(from).all(|b| *b == 0)
    }

    /// `n` symbols in the payload, and then only the byte for none.
    fn symbols_fit(self, n: u8) -> bool
        ensures { result ≡ symbol_bytes sixteen self.bytes n }
    {
        let Some((symbols, rest)) = self.bytes[8..].split_at_checked(n as usize) else {
            return false;
        };
        all_symbols(symbols) && no_symbols(rest)
    }

    fn action_in_range(self) -> bool
        ensures { result ≡ in_range_of sixteen self.bytes Act }
    {
        self.first() < STATES
            && self.second() < TERMINALS
            && self.unused(3, 4)
            && action_fits(self.f1(), self.f2())
            && self.unused(6, 16)
    }

    fn default_in_range(self) -> bool
        ensures { result ≡ in_range_of sixteen self.bytes D }
    {
        self.first() < STATES && self.unused(2, 4) && self.f1() < PRODUCTIONS && self.unused(5, 16)
    }

    fn goto_in_range(self) -> bool
        ensures { result ≡ in_range_of sixteen self.bytes G }
    {
        self.first() < STATES
            && self.second() < NONTERMINALS
            && self.unused(3, 4)
            && self.f1() < STATES
            && self.unused(5, 16)
    }

    fn item_in_range(self) -> bool
        ensures { result ≡ in_range_of sixteen self.bytes I }
    {
        let looks = self.payload();
        self.first() < STATES
            && (self.second() < PRODUCTIONS || self.second() == ADDED)
            && self.unused(4, 8)
            && looks < 1 << TERMINALS
            && looks != 0
    }

    fn past_in_range(self) -> bool
        ensures { result ≡ in_range_of sixteen self.bytes K }
    {
        // A set of 64 bits has no bit beyond the states.
        self.first() < STATES && self.second() < DEEPEST && self.unused(3, 8) && self.payload() != 0
    }

    fn nonterminal_in_range(self) -> bool
        ensures { result ≡ in_range_of sixteen self.bytes N }
    {
        let firsts = self.payload();
        self.first() < NONTERMINALS
            && self.unused(2, 4)
            && self.f1() < 2
            && self.unused(5, 8)
            && firsts < 1 << TERMINALS
            && firsts % 2 == 0
    }

    fn production_in_range(self) -> bool
        ensures { result ≡ in_range_of sixteen self.bytes P }
    {
        self.first() < PRODUCTIONS
            && self.unused(2, 4)
            && self.f1() < NONTERMINALS
            && self.unused(6, 8)
            && self.symbols_fit(self.f2())
    }

    fn state_in_range(self) -> bool
        ensures { result ≡ in_range_of sixteen self.bytes S }
    {
        self.first() < STATES
            && self.unused(2, 4)
            && (is_symbol(self.f1()) || self.f1() == NO_SYMBOL)
            && self.unused(6, 8)
            && self.symbols_fit(self.f2())
    }

    fn in_range_as(self, letter: Letter) -> bool
        ensures { result ≡ in_range_of sixteen self.bytes letter }
    {
        match letter {
            Letter::A => self.action_in_range(),
            Letter::D => self.default_in_range(),
            Letter::G => self.goto_in_range(),
            Letter::I => self.item_in_range(),
            Letter::K => self.past_in_range(),
            Letter::N => self.nonterminal_in_range(),
            Letter::P => self.production_in_range(),
            Letter::S => self.state_in_range(),
        }
    }

    /// Every byte is in the range that its letter gives it, and no set is empty that must not be.
    pub fn in_range(self) -> bool
        ensures { result ≡ in_range sixteen self.bytes }
    {
        self.letter().is_some_and(|letter| self.in_range_as(letter))
    }
}
