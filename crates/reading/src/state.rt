use crate::CELLS;
use arrayvec::ArrayVec;
use outcome::Outcome;

/// A reading by `table`, of what `source` gives, into `sink`. It owns all three until it is finished.
#[derive(Drop)]
pub struct Reading<T, S, K> {
    pub(crate) table: T,
    pub(crate) source: S,
    pub(crate) sink: K,
    // A state each, the oldest first.
    pub(crate) cells: ArrayVec<u8, CELLS>,
    pub(crate) steps: u64,
    // `More` until it ends.
    pub(crate) outcome: Outcome,
}
