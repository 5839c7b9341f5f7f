//! The lexer for C: what a plan's tokens come to, so that the lexer can be measured beside one that is written in C.
#![tactic(auto)]

ghost use Rattle.std.specs.Prelude.{◌≡◌};
ghost use Rattle.source.specs.Streams.{answer, dropped};
ghost use Rattle.lexer_c.specs.Sums.{plan_sum, sum};

use lexer::Lexer;
use source::{Source, SourceFault};
use syntax::Token;

/// The sum of all numbers of the plan's tokens, up to its ending; of a plan that is refused, 0.
#[unsafe(no_mangle)]
pub extern "C" fn lexer_sum(plan: &[u8]) -> u64
    ensures { result ≡ plan_sum plan.now }
{
    opened_sum(plan, 0)
}

/// The same, where each token is peeked so many times before it is taken.
#[unsafe(no_mangle)]
pub extern "C" fn lexer_sum_peeked(plan: &[u8], peeks: u32) -> u64
    ensures { result ≡ plan_sum plan.now }
{
    opened_sum(plan, peeks)
}

fn opened_sum(plan: &[u8], peeks: u32) -> u64
    ensures { result ≡ plan_sum plan.now }
{
    match Lexer::new(plan) {
        Ok(mut lexer) => total(&mut lexer, peeks),
        Err(_) => 0,
    }
}

// The sum of all numbers of the tokens to come.
fn total<S: Source>(source: &mut S, peeks: u32) -> u64
    ensures { result ≡ sum 0 (S.Source.meaning source.old).tokens }
{
    let mut all: u64 = 0;
    while let Ok(Some(token)) = peeked(source, peeks) {
        let shape = token.kind as u64 + token.place as u64 + token.length as u64;
        all = all.wrapping_add(shape).wrapping_add(token.value);
    }
    all
}

// Takes the next token, which is peeked so many times before.
fn peeked<S: Source>(source: &mut S, times: u32) -> Result<Option<Token>, SourceFault>
    ensures value { result ≡ answer (S.Source.meaning source.old) }
    ensures after { S.Source.meaning source.new ≡ dropped (S.Source.meaning source.old) }
{
    for _ in 0..times {
        let _ = source.peek();
    }
    source.take()
}
