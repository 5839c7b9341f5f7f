//! The completeness validator: the conditions by which every text of a grammar can be read, tested for any table that
//! comes with hints.
#![tactic(auto)]

mod beginnings;
mod closure;
mod ends;
mod equations;
mod item;
mod moves;

pub use equations::equations_hold;
pub use item::{initial_item_is_there, item_is_complete};
