//! The lines of a model, one after the other, to the last or the first bad one.

ghost use Rattle.std.specs.Prelude.{◌≡◌, ◌≤◌, length, OnErr, OnOk, IfOk, IfErr};
ghost use Rattle.hk_model.specs.inside.Faults.{IsLineFault};
ghost use Rattle.hk_model.specs.Models.{IsGoodLine, Spells};
ghost use Rattle.hk_model.specs.Refused.{IsErrorOf};

use crate::declared::Declared;
use crate::faults::error_at;
use crate::refusal::ModelError;
use hk_draft::{LineFault, RefusalKind};
use hk_group::Problem;
use hk_text::{TextFault, split_line, tokens};
use std::alloc::Global;

/// The problem that the bytes of a model spell. Else the refusal tells the first bad line and the
/// first kind of its faults, in the order of `RefusalKind`. Where all lines are good and none is the
/// header, or a specification isn't ended, the line after the last is Unfinished. Want of memory
/// has no cause in the model, and may be told of any.
pub fn read_model(alloc: Global, bytes: &[u8]) -> Result<Problem, ModelError>
    requires { length bytes.now ≤ 1048576 }
    ensures spells { IfOk result (Spells bytes.now) }
    ensures refused { IfErr result (IsErrorOf bytes.now) }
{
    let mut declared = Declared::new(alloc);
    let mut rest = bytes;
    let mut number = 1;
    'lines: while !rest.is_empty() {
        let (line, after) = split_line(rest);
        match read_line(alloc, &mut declared, line) {
            Ok(()) => {}
            Err(fault) => {
                drop(declared);
                return Err(error_at(number, fault));
            }
        }
        rest = after;
        number += 1;
    }
    match declared.finish() {
        None => Err(error_at(number, LineFault::Bad(RefusalKind::Unfinished))),
        Some(draft) => draft.finish(alloc).map_err(|_| ModelError::Memory),
    }
}

/// Takes one line, after what was declared before it. An error leaves the problem and the
/// specifications as they were.
fn read_line(alloc: Global, declared: &mut Declared, line: &[u8]) -> Result<(), LineFault>
    requires { length line.now ≤ 1048576 }
    ensures ok { OnOk result (IsGoodLine declared.old line.now declared.new) }
    ensures err { IfErr result (IsLineFault declared.old line.now) }
    ensures kept { OnErr result (declared.new ≡ record declared.old { block = declared.new.block }) }
{
    match tokens(alloc, line) {
        Ok(found) => declared.read(alloc, line, found.as_slice()),
        Err(TextFault::NotAscii(_)) => Err(LineFault::Bad(RefusalKind::Text)),
        Err(TextFault::BadByte(_)) => Err(LineFault::Bad(RefusalKind::Text)),
        Err(TextFault::Memory) => Err(LineFault::NoMemory),
    }
}
