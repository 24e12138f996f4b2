//! Why the passes of a node end before the last.

ghost use Rattle.std.specs.Prelude.{◌≡◌};

use hk_table::TraceFault;
use std::alloc::AllocError;
use thiserror::Error;

/// Why the passes of a node weren't all made: the trace was refused outside, or memory was.
#[derive(Debug, Drop, Error)]
pub enum PropFault {
    #[error("the trace was refused")]
    Trace,
    #[error("out of memory")]
    Memory,
}

impl From<AllocError> for PropFault {
    ghost use Rattle.hk_prop.specs.declared.faults.PropFault.TheVariants.{Memory};

    ghost from_gives = { λ _ fault. fault ≡ Memory };

    fn from(_refused: AllocError) -> PropFault {
        PropFault::Memory
    }
}

impl From<TraceFault> for PropFault {
    ghost use Rattle.hk_prop.specs.Faults.{fault_of};

    ghost from_gives = { λ why fault. fault ≡ fault_of why };

    fn from(why: TraceFault) -> PropFault {
        match why {
            TraceFault::Written => PropFault::Trace,
            TraceFault::Memory => PropFault::Memory,
        }
    }
}
