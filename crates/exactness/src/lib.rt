//! Theorems about the verdict on a sheet: which sheets pass, what is told of the others, and what passing promises.
#![tactic(auto)]

ghost use Rattle.exactness.specs.Cases.{CasesHold};
ghost use Rattle.exactness.specs.Exactness.{PassesExactlyTheValid, PassesInEachFormat, HintsAreLawful, CheckedIsValid, VerdictTellsFirst};

/// Nothing is refused exactly of the well-formed sheets whose table is safe and complete under their hints.
pub fn passes_exactly_the_valid()
    ensures sheets { PassesExactlyTheValid }
    ensures formats { PassesInEachFormat }
{}

/// The hints of a well-formed sheet are in place together with its table.
pub fn holds_lawful_hints()
    ensures { HintsAreLawful }
{}

/// A sheet of which nothing is refused holds a valid table.
pub fn holds_a_valid_table()
    ensures { CheckedIsValid }
{}

/// What is told is the refusal of the first pass that fails, at its least place.
pub fn tells_the_first_refusal()
    ensures { VerdictTellsFirst }
{}

/// The practice sheet passes, and sheets near it are refused where they should be.
pub fn cases_hold()
    ensures { CasesHold }
{}
