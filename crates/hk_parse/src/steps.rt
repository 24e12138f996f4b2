//! The steps of properties.

ghost use Rattle.std.specs.Prelude.{◌≡◌, All, ℕ, IfOk, IfErr, IfSome, IsNone};
ghost use Rattle.hk_kinds.specs.declared.kinds.Kind.{Kind};
ghost use Rattle.hk_text.specs.Texts.{texts_of};
ghost use Rattle.hk_parse.specs.LineTexts.{StepText};
ghost use Rattle.hk_terms.specs.Outcomes.{IsFew};
ghost use Rattle.hk_text.specs.Tokens.{IsTokenIn};
ghost use Rattle.hk_parse.specs.inside.StepReads.{AreStepTexts, IsNamed, IsStepFault, ReadsStep, ReadsStepOf, or_fault};

use crate::faults::BlockFault;
use hk_exprs::{read_num, read_pair, read_set};
use hk_kinds::Kind;
use hk_spec::{PropDecl, StepExpr};
use hk_terms::{Flaw, Names};
use hk_text::{Token, word_of};
use std::alloc::{AllocError, Global};

/// The step of the property that the tokens say, its name first.
pub fn step_of(
    alloc: Global,
    line: &[u8],
    tokens: &[Token],
    property: &PropDecl,
    names: &Names<'_>,
) -> Result<StepExpr, BlockFault>
    requires tokens { All (IsTokenIn line.now) tokens.now }
    requires few { IsFew names.now }
    ensures ok { IfOk result (ReadsStepOf names.now property.now (texts_of line.now tokens.now)) }
    ensures err { IfErr result (IsStepFault names.now property.now (texts_of line.now tokens.now)) }
{
    let Some((name, rest)) = word_of(line, tokens) else {
        return Err(BlockFault::Syntax);
    };
    match read_step(alloc, line, rest, property.kind, names) {
        Err(_) => Err(BlockFault::Memory),
        Ok(None) => Err(BlockFault::Syntax),
        Ok(Some(made)) => named_step(name, property, made),
    }
}

/// The step of the property, where it stands under the property's name.
fn named_step(
    name: &[u8],
    property: &PropDecl,
    made: Result<StepExpr, Flaw>,
) -> Result<StepExpr, BlockFault>
    ensures { IsNamed name.now property.now.name made result }
{
    if name != property.name.as_slice() {
        drop(made);
        return Err(BlockFault::Name);
    }
    or_fault(made)
}

/// What was made, or the fault of its flaw.
fn or_fault<T: Drop>(made: Result<T, Flaw>) -> Result<T, BlockFault>
    ensures { result ≡ or_fault made }
{
    match made {
        Ok(value) => Ok(value),
        Err(Flaw::Name) => Err(BlockFault::Name),
        Err(Flaw::Limit) => Err(BlockFault::Limit),
    }
}

/// The step that the tokens say in the form that the kind asks, where they say one.
fn read_step(
    alloc: Global,
    line: &[u8],
    tokens: &[Token],
    kind: Kind,
    names: &Names<'_>,
) -> Result<Option<Result<StepExpr, Flaw>>, AllocError>
    requires tokens { All (IsTokenIn line.now) tokens.now }
    requires few { IsFew names.now }
    ensures some { IfOk result (λ read. IfSome read (ReadsStep names.now kind (texts_of line.now tokens.now))) }
    ensures none { IfOk result (λ read. IsNone read → (step : StepText) → AreStepTexts kind (texts_of line.now tokens.now) step → ⊥) }
{
    match kind {
        Kind::Min => number_step(alloc, line, tokens, names),
        Kind::Max => number_step(alloc, line, tokens, names),
        Kind::Interval => interval_step(alloc, line, tokens, names),
        Kind::SomeBits => set_step(alloc, line, tokens, names),
        Kind::AllBits => set_step(alloc, line, tokens, names),
    }
}

/// The step to a number that the tokens say.
fn number_step(
    alloc: Global,
    line: &[u8],
    tokens: &[Token],
    names: &Names<'_>,
) -> Result<Option<Result<StepExpr, Flaw>>, AllocError>
    requires tokens { All (IsTokenIn line.now) tokens.now }
    requires few { IsFew names.now }
    ensures some { IfOk result (λ read. IfSome read (ReadsStep names.now Kind.Min (texts_of line.now tokens.now))) }
    ensures none { IfOk result (λ read. IsNone read → (step : StepText) → AreStepTexts Kind.Min (texts_of line.now tokens.now) step → ⊥) }
{
    match read_num(alloc, line, tokens, names)? {
        None => Ok(None),
        Some(Ok(e)) => Ok(Some(Ok(StepExpr::Num(e)))),
        Some(Err(flaw)) => Ok(Some(Err(flaw))),
    }
}

/// The step to two numbers that the tokens say.
fn interval_step(
    alloc: Global,
    line: &[u8],
    tokens: &[Token],
    names: &Names<'_>,
) -> Result<Option<Result<StepExpr, Flaw>>, AllocError>
    requires tokens { All (IsTokenIn line.now) tokens.now }
    requires few { IsFew names.now }
    ensures some { IfOk result (λ read. IfSome read (ReadsStep names.now Kind.Interval (texts_of line.now tokens.now))) }
    ensures none { IfOk result (λ read. IsNone read → (step : StepText) → AreStepTexts Kind.Interval (texts_of line.now tokens.now) step → ⊥) }
{
    match read_pair(alloc, line, tokens, names)? {
        None => Ok(None),
        Some(Ok((low, high))) => Ok(Some(Ok(StepExpr::Pair(low, high)))),
        Some(Err(flaw)) => Ok(Some(Err(flaw))),
    }
}

/// The step to a set that the tokens say.
fn set_step(
    alloc: Global,
    line: &[u8],
    tokens: &[Token],
    names: &Names<'_>,
) -> Result<Option<Result<StepExpr, Flaw>>, AllocError>
    requires tokens { All (IsTokenIn line.now) tokens.now }
    requires few { IsFew names.now }
    ensures some { IfOk result (λ read. IfSome read (ReadsStep names.now Kind.SomeBits (texts_of line.now tokens.now))) }
    ensures none { IfOk result (λ read. IsNone read → (step : StepText) → AreStepTexts Kind.SomeBits (texts_of line.now tokens.now) step → ⊥) }
{
    match read_set(alloc, line, tokens, names)? {
        None => Ok(None),
        Some(Ok(e)) => Ok(Some(Ok(StepExpr::Set(e)))),
        Some(Err(flaw)) => Ok(Some(Err(flaw))),
    }
}
