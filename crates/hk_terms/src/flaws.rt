//! What may be wrong with an expression that is well written.

/// What is wrong with an expression that is well written.
#[derive(Clone, Copy, Debug, PartialEq, Eq)]
pub enum Flaw {
    /// A name stands for nothing, or for something else than its place asks.
    Name,
    /// A number or the depth passes its limit.
    Limit,
}
