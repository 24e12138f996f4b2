//! How much a specification may hold.

/// The most bytes of a name.
pub const NAME_BYTES: usize = 32;

/// The most parameters of a specification.
pub const PARAMS: usize = 16;

/// The most properties of a side.
pub const PROPERTIES: usize = 32;
