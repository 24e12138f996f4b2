//! What the passes of a node leave.

/// Whether each variable has a value left after the passes of a node, or else the first that has
/// none.
#[derive(Clone, Copy, Debug, PartialEq, Eq)]
pub enum Settled {
    Stands,
    Empty(u16),
}
