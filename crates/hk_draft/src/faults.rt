//! Why the reader stops at a line.

use crate::kinds::RefusalKind;
use std::alloc::AllocError;

/// Why the reader stops at a line.
#[derive(Drop)]
pub enum LineFault {
    /// The line is bad, and this is the first kind of its faults.
    Bad(RefusalKind),
    /// There is no memory for the line: the model isn't its cause, and it says nothing of the line.
    NoMemory,
}

impl From<AllocError> for LineFault {
    ghost use Rattle.std.specs.Prelude.{◌≡◌};
    ghost use Rattle.hk_draft.specs.declared.faults.LineFault.TheVariants.{NoMemory};

    ghost from_gives = { λ _ fault. fault ≡ NoMemory };

    fn from(_failed: AllocError) -> LineFault {
        LineFault::NoMemory
    }
}
