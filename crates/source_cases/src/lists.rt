use crate::show::show;
use list::ListSource;
use std::io;
use syntax::Token;

fn token(kind: u8, place: u32) -> Token {
    Token {
        kind,
        place,
        length: 1,
        value: 0,
    }
}

// Three tokens of these kinds, or where they are refused.
pub fn show_list(rt: &HostRuntime, kinds: [u8; 3]) -> io::Result<()> {
    println!(rt; "a list of kinds {kinds:?}")?;
    let [a, b, c] = kinds;
    let tokens = [token(a, 0), token(b, 1), token(c, 2)];
    let mut source = ListSource::empty();
    match source.open(&tokens) {
        Ok(()) => show(rt, &mut source),
        Err(refusal) => println!(rt; "    refused: {refusal}"),
    }
}
