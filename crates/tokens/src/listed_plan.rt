ghost use Rattle.std.specs.Prelude.{◌≡◌, IfOk};
ghost use Rattle.tokens.specs.Listings.{Lists, emptied, Answers};

use crate::listing::Listing;
use crate::refusal::Refusal;
use pile::Plan;
use source::Source;
use std::alloc::{AllocError, Global};

// All that a source still has to give.
pub fn list<S: Source>(heap: Global, source: &mut S) -> Result<Listing, AllocError>
    ensures all { IfOk result (λ l. Lists (S.Source.meaning source.old) l) }
    ensures after { IfOk result (λ _.
        S.Source.meaning source.new ≡ emptied (S.Source.meaning source.old)) }
{
    let mut tokens = Vec::new(heap);
    loop {
        match source.take() {
            Ok(Some(token)) => tokens.push(token)?,
            Ok(None) => return Ok(Listing {
                tokens,
                fault: None,
            }),
            Err(fault) => return Ok(Listing {
                tokens,
                fault: Some(fault),
            }),
        }
    }
}

// The tokens of a plan.
pub fn list_plan(heap: Global, plan: Plan<'_, '_>) -> Result<Listing, Refusal>
    ensures { Answers plan.entry result }
{
    let mut source = plan.open()?;
    let listing = list(heap, &mut source)?;
    Ok(listing)
}
