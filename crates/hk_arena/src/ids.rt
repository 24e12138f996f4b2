//! Names of rows and of entries.

/// A row of a diagram: its layer, and its place there.
#[derive(Clone, Copy, Debug, PartialEq, Eq)]
pub struct RowId {
    pub layer: u16,
    pub at: u16,
}

/// An entry of a diagram: its row, and its place among the entries there.
#[derive(Clone, Copy, Debug, PartialEq, Eq)]
pub struct EntryId {
    pub row: RowId,
    pub at: u16,
}
