//! Diagrams: layered decision diagrams in trailed cells.
//!
//! A [`Diagram`] holds one table, which calls change row by row, and a stack of levels: a push saves
//! the table, and a pop gives it back at the cost of what was changed since.
#![tactic(auto)]

mod blanks;
mod cells;
mod diagram;
mod entries;
mod from;
mod ids;
mod layout;
mod opening;
mod reading;
mod resizing;
mod row_states;
mod rows;
mod sizes;
mod states;
mod support;
mod whole_rows;

pub use diagram::Diagram;
pub use ids::{EntryId, RowId};
