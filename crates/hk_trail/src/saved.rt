//! The entries of the log.

use crate::cell::Cell;
use hk_cells::Id;

/// An entry of the log: what a cell held, and the stamp that it had, before the first write of it in
/// a level.
#[derive(Drop)]
pub(crate) struct Saved<T: Cell> {
    pub(crate) id: Id<T>,
    pub(crate) value: T,
    pub(crate) stamp: u32,
}
