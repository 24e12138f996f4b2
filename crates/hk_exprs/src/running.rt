//! The steps from the first token of an expression to its last.

ghost use Rattle.std.specs.Prelude.{◌≡◌, [], ◌∷◌, All, IfOk, IfSome, IsNone};
ghost use Rattle.hk_text.specs.Texts.{texts_of};
ghost use Rattle.hk_exprs.specs.inside.Machines as machine;
ghost use Rattle.hk_terms.specs.Names as names;
ghost use Rattle.hk_terms.specs.Outcomes.{IsFew};
ghost use Rattle.hk_text.specs.Tokens.{IsTokenIn};
ghost use Rattle.hk_exprs.specs.inside.Standing.{IsKept, IsKeptFrame};

use crate::frames::Frame;
use crate::operands::Operand;
use crate::stepping::step;
use hk_base::List;
use hk_terms::Names;
use hk_text::Token;
use std::alloc::{AllocError, Global};

/// The frame that is left where all tokens were taken and no parenthesis is open, if steps lead
/// there.
fn run_steps<'a>(
    alloc: Global,
    line: &'a [u8],
    tokens: &[Token],
    names: &Names<'_>,
    start: Frame<'a>,
) -> Result<Option<Frame<'a>>, AllocError>
    requires tokens { All (IsTokenIn line.now) tokens.now }
    requires few { IsFew names.now }
    requires kept { (f : machine.Frame) × IsKeptFrame names.now f start }
    ensures some { IfOk result (λ run. IfSome run (λ inner. (f : machine.Frame) → IsKeptFrame names.now f start.entry
        → (x : machine.Frame) × machine.Steps (f ∷ []) (texts_of line.now tokens.now) (x ∷ []) [] × IsKeptFrame names.now x inner)) }
    ensures none { IfOk result (λ run. IsNone run → (f x : machine.Frame) → IsKeptFrame names.now f start.entry
        → machine.Steps (f ∷ []) (texts_of line.now tokens.now) (x ∷ []) [] → ⊥) }
{
    let mut outer = List::new(alloc);
    let mut inner = start;
    let mut left = tokens;
    'steps: while !left.is_empty() {
        match step(alloc, line, left, names, inner, &mut outer) {
            Ok(Some((next, rest))) => {
                inner = next;
                left = rest;
            }
            Ok(None) => {
                drop(outer);
                return Ok(None);
            }
            Err(error) => {
                drop(outer);
                return Err(error);
            }
        }
    }
    if !outer.as_slice().is_empty() {
        drop((inner, outer));
        return Ok(None);
    }
    drop(outer);
    Ok(Some(inner))
}

/// The operand in a frame that holds one operand and nothing else.
fn only_operand(inner: Frame<'_>) -> Option<Operand<'_>>
    ensures some { IfSome result (λ a. (names : names.Names) (f : machine.Frame) → IsKeptFrame names f inner.entry
        → (x : machine.Operand) × (f ≡ machine.One x) × IsKept names x a) }
    ensures none { IsNone result → (names : names.Names) (x : machine.Operand) → IsKeptFrame names (machine.One x) inner.entry → ⊥ }
{
    match inner {
        Frame::One(operand) => Some(operand),
        other => {
            drop(other);
            None
        }
    }
}

/// The operand that the tokens say, where they say one.
pub fn run_to_one<'a>(
    alloc: Global,
    line: &'a [u8],
    tokens: &[Token],
    names: &Names<'_>,
) -> Result<Option<Operand<'a>>, AllocError>
    requires tokens { All (IsTokenIn line.now) tokens.now }
    requires few { IsFew names.now }
    ensures some { IfOk result (λ run. IfSome run (λ a. (x : machine.Operand)
        × machine.Steps (machine.Empty ∷ []) (texts_of line.now tokens.now) (machine.One x ∷ []) [] × IsKept names.now x a)) }
    ensures none { IfOk result (λ run. IsNone run → (x : machine.Operand)
        → machine.Steps (machine.Empty ∷ []) (texts_of line.now tokens.now) (machine.One x ∷ []) [] → ⊥) }
{
    let Some(inner) = run_steps(alloc, line, tokens, names, Frame::Empty)? else {
        return Ok(None);
    };
    Ok(only_operand(inner))
}

/// The operands in a frame that holds two side by side.
fn only_operands(inner: Frame<'_>) -> Option<(Operand<'_>, Operand<'_>)>
    ensures some { IfSome result (λ two. (names : names.Names) (f : machine.Frame) → IsKeptFrame names f inner.entry
        → (x : machine.Operand) × (y : machine.Operand) × (f ≡ machine.Both x y) × IsKept names x two.0 × IsKept names y two.1) }
    ensures none { IsNone result → (names : names.Names) (x y : machine.Operand) → IsKeptFrame names (machine.Both x y) inner.entry → ⊥ }
{
    match inner {
        Frame::Both(a, b) => Some((a, b)),
        other => {
            drop(other);
            None
        }
    }
}

/// The two operands that the tokens say side by side, where they say two.
pub fn run_to_two<'a>(
    alloc: Global,
    line: &'a [u8],
    tokens: &[Token],
    names: &Names<'_>,
) -> Result<Option<(Operand<'a>, Operand<'a>)>, AllocError>
    requires tokens { All (IsTokenIn line.now) tokens.now }
    requires few { IsFew names.now }
    ensures some { IfOk result (λ run. IfSome run (λ two. (x : machine.Operand) × (y : machine.Operand)
        × machine.Steps (machine.First ∷ []) (texts_of line.now tokens.now) (machine.Both x y ∷ []) [] × IsKept names.now x two.0 × IsKept names.now y two.1)) }
    ensures none { IfOk result (λ run. IsNone run → (x y : machine.Operand)
        → machine.Steps (machine.First ∷ []) (texts_of line.now tokens.now) (machine.Both x y ∷ []) [] → ⊥) }
{
    let Some(inner) = run_steps(alloc, line, tokens, names, Frame::First)? else {
        return Ok(None);
    };
    Ok(only_operands(inner))
}
