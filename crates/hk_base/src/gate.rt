//! Who is told that pieces of work begin.

/// Who is told that a piece of work begins that may run beside others. It touches no result.
pub trait Gate {
    /// The piece of this number begins. Pieces are numbered from 1.
    fn enter(&self, piece: u32);
}
