use crate::show::show;
use keywords::{Keyword, Keywords};
use lexer::{Lexer, spelling};
use limit::Limit;
use source::Source;
use std::io;

// Lists a keyword and prints what is answered.
fn list_word<S: Source>(
    rt: &HostRuntime,
    words: &mut Keywords<S>,
    what: &str,
    spelling: u64,
    kind: u8,
) -> io::Result<()> {
    match words.add(Keyword { spelling, kind }) {
        Ok(()) => println!(rt; "    {what}: listed"),
        Err(refusal) => println!(rt; "    {what}: refused, {refusal}"),
    }
}

// Keywords up to the sixteenth and beyond, and then a plan under them and a limit of 3.
pub fn show_keywords(rt: &HostRuntime) -> io::Result<()> {
    println!(rt; "keywords")?;
    let mut lexer = Lexer::empty();
    let _ = lexer.open(b"on 28526 off on");
    let mut words = Keywords::new(lexer);
    let on = spelling(b"on").unwrap_or(0);
    list_word(rt, &mut words, "on as 0", on, 0)?;
    list_word(rt, &mut words, "on as 32", on, 32)?;
    list_word(rt, &mut words, "no spelling", 0, 17)?;
    list_word(rt, &mut words, "on as 17", on, 17)?;
    list_word(rt, &mut words, "on again", on, 18)?;
    for other in 1..16 {
        let _ = words.add(Keyword {
            spelling: other,
            kind: 31,
        });
    }
    list_word(
        rt,
        &mut words,
        "on again, when it would be the 17th",
        on,
        18,
    )?;
    list_word(rt, &mut words, "a 17th", 99, 18)?;
    println!(rt; "a plan under these keywords and a limit of 3")?;
    show(rt, &mut Limit::new(words, 3))
}
