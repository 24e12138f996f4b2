//! Why no group is composed.

use thiserror::Error;

/// Why no group was composed.
#[derive(Debug, Drop, Error)]
pub enum GroupFault {
    /// The variables of a scope don't stand in the order of their declaration, each once.
    #[error("the variables of a scope don't rise")]
    Scope,
    #[error("no memory for the group")]
    Memory,
}
