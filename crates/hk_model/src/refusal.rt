//! Refusals: the line and the kind of its first fault.

use hk_draft::RefusalKind;
use thiserror::Error;

/// The refusal of a model: its first bad line, counted from 1, and why it is bad. What isn't finished
/// at the end is refused at the line after the last.
#[derive(Clone, Copy, Debug, PartialEq, Eq)]
pub struct Refusal {
    pub line: u32,
    pub kind: RefusalKind,
}

/// Why no problem was read.
#[derive(Debug, Drop, Error)]
pub enum ModelError {
    /// The model is refused.
    #[error("the model is refused at line {}", .0.line)]
    Refused(Refusal),
    /// There was no memory for the model: the model isn't its cause, and it says nothing of the model.
    #[error("no memory for the model")]
    Memory,
}
