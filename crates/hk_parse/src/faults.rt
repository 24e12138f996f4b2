//! Why a line of a specification, or a whole text, is bad.

use thiserror::Error;

/// Why a line of a specification is bad.
#[derive(Clone, Copy, Debug, PartialEq, Eq)]
pub enum BlockFault {
    /// The tokens are those of no line that may stand there.
    Syntax,
    /// A name is taken, or stands for something else than its place asks.
    Name,
    /// A quantity passes its limit.
    Limit,
    /// There is no memory.
    Memory,
}

/// Why a text writes no specification: its first bad line, counted from 1, by the first of these that
/// is true of it. Where only the end is wanting, that is the line after the last.
#[derive(Debug, Drop, Error)]
pub enum SpecFault {
    #[error("line {0} is none that may stand there")]
    Syntax(u32),
    #[error("a name of line {0} is taken or not known")]
    Name(u32),
    #[error("line {0} passes a limit")]
    Limit(u32),
    #[error("no memory for the specification")]
    Memory,
}
