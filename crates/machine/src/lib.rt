//! The machine of a reading, its runs, and what is promised of every run. Each function carries a theorem.
#![tactic(auto)]

ghost use Rattle.machine.specs.Marked.{Marked};
ghost use Rattle.machine.specs.Promise.{Promise, Bounds, AnswersTruly, OneCallMore};

/// What is accepted is one tree of the whole text; and on a valid table a text has one tree, what fits is accepted and
/// nothing else, nothing slips, and what is rejected is hopeless.
pub fn promise_of_runs<V>()
    ensures { Promise V }
{}

/// No run outgrows its grant or the cells, and the sink always has a value for each cell.
pub fn runs_are_bounded<V>()
    ensures { Bounds V }
{}

/// A declined call changes nothing, and any other tells how the reading then stands.
pub fn answers_are_true<V>()
    ensures { AnswersTruly V }
{}

/// A run goes on call by call.
pub fn one_call_more<V>()
    ensures { OneCallMore V }
{}

/// Readings by the practice table come out as they were worked out by hand.
pub fn marked_readings()
    ensures { Marked }
{}
