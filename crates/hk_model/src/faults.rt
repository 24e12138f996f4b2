//! The answer about a model whose reader stops at a line.

ghost use Rattle.hk_model.specs.inside.Faults.{IsErrorAt};

use crate::refusal::{ModelError, Refusal};
use hk_draft::LineFault;

/// The answer about a model whose line of this number has the fault.
pub fn error_at(number: u32, fault: LineFault) -> ModelError
    ensures { IsErrorAt number fault result }
{
    match fault {
        LineFault::Bad(kind) => ModelError::Refused(Refusal { line: number, kind }),
        LineFault::NoMemory => ModelError::Memory,
    }
}
