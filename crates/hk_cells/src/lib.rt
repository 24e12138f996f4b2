//! Cells that are changed through one call alone, and a counter of those changes.
//!
//! A [`Pool`] is a growing row of cells of one type. A cell is named by an [`Id`] that carries the
//! type of its pool, is read by [`Pool::get`] and changed by [`Pool::set`]. Each call of `set` is
//! one tick of a [`Steps`], a counter that contracts read and that takes no bytes when the program
//! runs, so a contract can bound how many cells a call writes.
#![tactic(auto)]

mod id;
mod pool;
mod steps;

pub use id::Id;
pub use pool::Pool;
pub use steps::Steps;
