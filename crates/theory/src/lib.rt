//! What holds of every LR(1) table and its machine without bounds. Each function carries a theorem.
#![tactic(auto)]

ghost use Rattle.table.specs.Lawful.{narrow};
ghost use Rattle.table.specs.Validity.{Valid};
ghost use Rattle.theory.specs.Practice.{practice};
ghost use Rattle.theory.specs.Theorems.{Natural, ReadingMaps, AcceptsOnlyTrees, NeverSlips, ReadsEveryTree};
ghost use Rattle.theory.specs.Theorems.{StaysOnTheWay, OneTree, RejectsTheHopeless};

/// The machine treats values alike whatever they are: it commutes with all that takes one reading of trees to another.
pub fn values_are_natural<V, W>()
    ensures moves { Natural V W }
    ensures trees { ReadingMaps V }
{}

/// What a lawful table accepts is one tree of the whole text, in as many steps as its size.
pub fn accepts_only_trees<V>()
    ensures { AcceptsOnlyTrees V }
{}

/// A table that is safe under some hints never slips.
pub fn never_slips<V>()
    ensures { NeverSlips V }
{}

/// A table that is complete under some hints, and does not slip, reads every tree, in as many steps as its size and as
/// many cells as its reach.
pub fn reads_every_tree<V>()
    ensures { ReadsEveryTree V }
{}

/// Where every tree is read, a run on a text that has a tree stays on the way to it.
pub fn stays_on_the_way<V>()
    ensures { StaysOnTheWay V }
{}

/// Where every tree is read, a text has one tree at most.
pub fn one_tree()
    ensures { OneTree }
{}

/// Where every tree is read, what is rejected begins no text of the grammar.
pub fn rejects_the_hopeless<V>()
    ensures { RejectsTheHopeless V }
{}

/// The practice table is valid.
pub fn practice_is_valid()
    ensures { Valid narrow practice }
{}
