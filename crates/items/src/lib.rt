//! The table of the items language as dense constants: every question is answered by an index.
#![tactic(auto)]

mod rows;

use dense::Dense;
pub use rows::ItemsRows;
use std::marker::PhantomData;

/// The table on the sheet of the items language.
pub type ItemsTable = Dense<ItemsRows, 4, 16, 2>;

/// Its only value, which goes by the type's name as that of a unit struct does.
pub const ItemsTable: ItemsTable = Dense { rows: PhantomData };
