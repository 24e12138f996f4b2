//! What a trace is told.

use crate::tables::Row;
use hk_base::List;

/// One thing that happened in a search: a pass begins, or a table that it makes, a layer or a row
/// of one; a branch on a variable at a value; or the end of a node, which has no value left for
/// some variable, has a solution, or isn't entered.
#[derive(Debug, Drop)]
pub enum TraceItem {
    Pass,
    Table(u16),
    Layer(u16),
    Row(Row),
    Branch(u16, u8),
    Fail,
    Sol(List<u8>),
    OpenLeaf,
}
