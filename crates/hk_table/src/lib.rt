//! Tables of a decision diagram: layers of rows, whose entries lead from a row to one of the next
//! layer.
//!
//! A path through a table spells an assignment, and a table says which assignments it still keeps
//! and which values it supports. A trace is told of tables as a search goes on.
#![tactic(auto)]

mod copies;
mod entries;
mod items;
mod laws;
mod list_trace;
mod null_trace;
mod opening;
mod row_sets;
mod support;
mod tables;
mod traces;
mod value_sets;

pub use entries::Entry;
pub use items::TraceItem;
pub use laws::{kept_values_are_supported, opening_table_fits, opening_table_keeps_all};
pub use list_trace::ListTrace;
pub use null_trace::NullTrace;
pub use row_sets::RowSet;
pub use support::Found;
pub use tables::{Layers, Row, Shape, Table};
pub use traces::{Trace, TraceFault};
pub use value_sets::{split_least, value_count};
