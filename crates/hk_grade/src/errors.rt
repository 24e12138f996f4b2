//! Why a specification isn't graded.

use hk_spec::{Place, Sense};
use thiserror::Error;

/// The first place of a specification whose sense isn't allowed there, in the order test, down steps,
/// up steps, with the sense that was found: where both numbers of an Interval are wrong, the first
/// one's, and where one is, that one's.
#[derive(Clone, Copy, Debug, PartialEq, Eq)]
pub struct GradeFault {
    pub place: Place,
    pub found: Sense,
}

/// Why no graded specification was made.
#[derive(Debug, Drop, Error)]
pub enum GradeError {
    #[error("the specification can't be trusted where states are merged")]
    Fault(GradeFault),
    #[error("no memory for a copy of the specification")]
    Memory,
}
