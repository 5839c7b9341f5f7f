ghost use Rattle.std.specs.Prelude.{◌≡◌};
ghost use Rattle.tokens.specs.declared.refusal.Refusal.TheVariants.{Plan, Memory};

use pile::PileRefusal;
use std::alloc::AllocError;

// Why a plan is not listed.
pub enum Refusal {
    Plan(PileRefusal),
    Memory,
}

impl From<PileRefusal> for Refusal {
    ghost from_gives = { λ e r. r ≡ Plan e };

    fn from(refusal: PileRefusal) -> Refusal {
        Refusal::Plan(refusal)
    }
}

impl From<AllocError> for Refusal {
    ghost from_gives = { λ _ r. r ≡ Memory };

    fn from(_: AllocError) -> Refusal {
        Refusal::Memory
    }
}
