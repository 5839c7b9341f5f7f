//! Theorems about the bytes of a sheet: which are well-formed, what is told of the others, and what table they hold.
#![tactic(auto)]

ghost use Rattle.layout.specs.Practice.{CasesHold};
ghost use Rattle.wellformed.specs.Formed.{SortsExactlySorted, OpensExactlyFormed, FormedIsLawful};
ghost use Rattle.wellformed.specs.Told.{TellsFirst, OpeningTellsFirst};

/// Opening refuses nothing exactly of the sheets that are well-formed, and its first two passes nothing of those that
/// are sorted.
pub fn opens_exactly_the_well_formed()
    ensures sorted { SortsExactlySorted }
    ensures formed { OpensExactlyFormed }
{}

/// What is told is the refusal of the first pass that fails, at its least place.
pub fn tells_the_first_refusal()
    ensures passes { TellsFirst }
    ensures opening { OpeningTellsFirst }
{}

/// A well-formed sheet holds a lawful table.
pub fn holds_a_lawful_table()
    ensures { FormedIsLawful }
{}

/// The practice sheet opens, and sheets near it are refused where they should be.
pub fn cases_hold()
    ensures { CasesHold }
{}
