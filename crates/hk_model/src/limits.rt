//! How much a model may hold beside its problem.

/// How many specifications a model has at most.
pub const SPECIFICATIONS: usize = 64;
