//! The practice table as dense constants: every question is answered by an index.
#![tactic(auto)]

ghost use Rattle.std.specs.Prelude.{◌≡◌};
ghost use Rattle.layout.specs.Records.{sheet};
ghost use Rattle.layout.specs.Meaning.{automaton};
ghost use Rattle.layout.specs.Practice.{practice_bytes};
ghost use Rattle.theory.specs.Practice.{practice};

mod rows;

use dense::Dense;
pub use rows::PracticeRows;
use std::marker::PhantomData;

/// The table that the practice sheet holds.
pub type PracticeTable = Dense<PracticeRows, 2, 2, 1>;

/// Its only value, which goes by the type's name as that of a unit struct does.
pub const PracticeTable: PracticeTable = Dense { rows: PhantomData };

/// The table on the practice sheet is the one that the theory has as its example.
pub fn is_the_example_of_the_theory()
    ensures { automaton (sheet practice_bytes) ≡ practice }
{}
