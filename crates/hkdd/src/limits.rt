//! How much the program reads.

/// How many bytes a model has at most.
pub const MODEL_BYTES: usize = 1_048_576;
