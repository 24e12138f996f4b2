//! What a run owes: a status and a text.

ghost use Rattle.std.specs.Prelude.{◌≡◌, ◌++◌, IfOk, OnOk};
ghost use Rattle.hk_search.specs.AnswerTexts.{IsAnswerText};
ghost use Rattle.hkdd.specs.Runs.{IsReply};
ghost use Rattle.hkdd.specs.Texts.{usage_text, read_fault_text, refusal_text, too_large_text, kind_text};

use crate::limits::MODEL_BYTES;
use hk_base::{Bytes, List};
use hk_group::Problem;
use hk_model::{ModelError, Refusal, RefusalKind, read_model};
use hk_search::{answer_text, search_plain};
use hk_text::push_number;
use std::alloc::{AllocError, Global};

/// A status and the text that goes out with it.
#[derive(Debug, Drop)]
pub struct Due {
    pub status: u8,
    pub text: Bytes,
}

/// Status 2 and the usage text, for words that are no command. Fails only for want of memory.
pub fn usage(alloc: Global) -> Result<Due, AllocError>
    ensures status { IfOk result (λ due. due.status ≡ 2) }
    ensures text { IfOk result (λ due. due.text ≡ usage_text) }
{
    let mut text = List::new(alloc);
    text.push_all(b"usage: hkdd solve FILE\n")?;
    Ok(Due { status: 2, text })
}

/// Status 4, and that an input could not be read. Fails only for want of memory.
pub fn read_fault(alloc: Global) -> Result<Due, AllocError>
    ensures status { IfOk result (λ due. due.status ≡ 4) }
    ensures text { IfOk result (λ due. due.text ≡ read_fault_text) }
{
    let mut text = List::new(alloc);
    text.push_all(b"read fault\n")?;
    Ok(Due { status: 4, text })
}

/// Status 8, and that the model is too long. Fails only for want of memory.
fn too_large(alloc: Global) -> Result<Due, AllocError>
    ensures status { IfOk result (λ due. due.status ≡ 8) }
    ensures text { IfOk result (λ due. due.text ≡ too_large_text) }
{
    let mut text = List::new(alloc);
    text.push_all(b"too large\n")?;
    Ok(Due { status: 8, text })
}

/// What `solve` says of the bytes of a model: status 0 and the answer of the problem that they spell,
/// or status 3 and where and why they are refused, or status 8 where they are more than a model may
/// have. Fails only for want of memory.
pub fn reply(alloc: Global, model: &[u8]) -> Result<Due, AllocError>
    ensures { IfOk result (λ due. IsReply model.now due.status due.text) }
{
    if model.len() > MODEL_BYTES {
        let due = too_large(alloc)?;
        return Ok(due);
    }
    match read_model(alloc, model) {
        Ok(problem) => {
            let answer = answered(alloc, &problem);
            drop(problem);
            answer
        }
        Err(ModelError::Refused(refusal)) => {
            let due = refused(alloc, refusal.line, refusal.kind)?;
            Ok(due)
        }
        Err(ModelError::Memory) => Err(AllocError),
    }
}

/// The answer of a problem.
fn answered(alloc: Global, problem: &Problem) -> Result<Due, AllocError>
    ensures status { IfOk result (λ due. due.status ≡ 0) }
    ensures text { IfOk result (λ due. IsAnswerText problem.now due.text) }
{
    let answer = search_plain(alloc, problem)?;
    let mut text = List::new(alloc);
    answer_text(problem, &answer, &mut text)?;
    Ok(Due { status: 0, text })
}

/// That a model is refused at a line, and why.
fn refused(alloc: Global, line: u32, kind: RefusalKind) -> Result<Due, AllocError>
    ensures status { IfOk result (λ due. due.status ≡ 3) }
    ensures text { IfOk result (λ due. due.text ≡ refusal_text line kind) }
{
    let mut text = List::new(alloc);
    text.push_all(b"refused line ")?;
    push_number(&mut text, i64::from(line))?;
    text.push_all(b" ")?;
    push_kind(&mut text, kind)?;
    text.push_all(b"\n")?;
    Ok(Due { status: 3, text })
}

/// Appends the name of a kind of refusal.
fn push_kind(text: &mut Bytes, kind: RefusalKind) -> Result<(), AllocError>
    ensures { OnOk result (text.new ≡ text.old ++ kind_text kind) }
{
    match kind {
        RefusalKind::Text => text.push_all(b"Text"),
        RefusalKind::Syntax => text.push_all(b"Syntax"),
        RefusalKind::Name => text.push_all(b"Name"),
        RefusalKind::Limit => text.push_all(b"Limit"),
        RefusalKind::Scope => text.push_all(b"Scope"),
        RefusalKind::Grade => text.push_all(b"Grade"),
        RefusalKind::Unfinished => text.push_all(b"Unfinished"),
    }
}
