use crate::show::{show, show_token};
use lexer::Lexer;
use limit::Limit;
use source::Source;
use std::io;

// A plan, or its refusal.
pub fn show_plan(rt: &HostRuntime, plan: &[u8]) -> io::Result<()> {
    println!(rt; "a plan of {} bytes", plan.len())?;
    let mut lexer = Lexer::empty();
    match lexer.open(plan) {
        Ok(()) => show(rt, &mut lexer),
        Err(refusal) => println!(rt; "    refused: {refusal}"),
    }
}

// A plan under a limit.
pub fn show_limited(rt: &HostRuntime, plan: &[u8], limit: u64) -> io::Result<()> {
    println!(rt; "a plan of {} bytes under a limit of {limit}", plan.len())?;
    let mut lexer = Lexer::empty();
    let _ = lexer.open(plan);
    show(rt, &mut Limit::new(lexer, limit))
}

// The longest plan, and one byte more.
pub fn show_long_plans(rt: &HostRuntime) -> io::Result<()> {
    show_plan(rt, &[b' '; 65_535])?;
    show_plan(rt, &[b' '; 65_536])
}

// A number of 65,535 digits, looked at as often as it has digits.
pub fn show_many_peeks(rt: &HostRuntime) -> io::Result<()> {
    println!(rt; "a number of 65535 digits, peeked 65535 times")?;
    let plan = [b'0'; 65_535];
    let mut lexer = Lexer::empty();
    let _ = lexer.open(&plan);
    for _ in 0..65_535 {
        let _ = lexer.peek();
    }
    if let Ok(Some(token)) = lexer.peek() {
        show_token(rt, token)?;
    }
    Ok(())
}
