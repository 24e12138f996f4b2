//! How much a problem may hold.

pub use hk_base::LIM;

/// How many variables a problem has at most.
pub const VARIABLES: usize = 256;

/// How many values there are: a variable takes values from 0 to 127.
pub const VALUES: u32 = 128;

/// How many bytes a name has at most.
pub const NAME_BYTES: usize = 32;

/// How many constraints a problem has at most.
pub const CONSTRAINTS: usize = 64;

/// How many groups a problem has at most.
pub const GROUPS: usize = 32;

/// How many values a window has at most.
pub const WINDOW: u16 = 32;

/// How great a coefficient is at most in size.
pub const COEFFICIENT: i64 = 1_000_000;

/// How many rows a layer of a diagram has at most.
pub const ROWS: u16 = 256;

/// How many entries a group's diagram has room for at most.
pub const GROUP_ENTRIES: u64 = 1_000_000;

/// How many entries all diagrams of a problem have room for at most.
pub const ENTRIES: u64 = 4_000_000;

/// How many properties all diagrams of a problem have room for at most.
pub const PROPERTIES: u128 = 8_000_000;
