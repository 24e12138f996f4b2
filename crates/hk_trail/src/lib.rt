//! Cells with levels: a push saves what all cells hold, and a pop gives it back at the cost of what
//! was written since.
//!
//! A [`Store`] has three pools of cells, of `i64`, `u128` and `u32`, and a stack of open levels. A
//! push copies no cell. The first write of a cell in a level puts what the cell held into a log, and
//! a pop replays the log's latest part. docs/trail.md has the whole in plain words.
#![tactic(auto)]

mod cell;
mod replay;
mod saved;
mod store;
mod track;

pub use store::Store;
