//! Frames with an operand or a content more, and what they hold at their end.

ghost use Rattle.std.specs.Prelude.{◌≡◌, None, IfOk};
ghost use Rattle.hk_exprs.specs.inside.Machines as machine;
ghost use Rattle.hk_terms.specs.Names as names;
ghost use Rattle.hk_terms.specs.Outcomes.{IsFew};
ghost use Rattle.hk_exprs.specs.inside.Standing.{BothOrNone, IsKept, IsKeptContent, IsKeptFrame};

use crate::frames::{Content, Frame};
use crate::joining::{chosen, counted, joined, word_of};
use crate::making::{deny, negate};
use crate::operands::Operand;
use crate::resolving::{as_cond, as_num, is_text, num_literal};
use hk_terms::{Mark, Names};
use std::alloc::{AllocError, Global};

/// Nothing, and what there was is dropped.
pub fn none_of<T: Drop, X>(_old: T) -> Option<X>
    ensures { result ≡ None }
{
    None
}

/// An operand after another, which must be the word `not`.
fn after_word<'a>(word: Operand<'a>, operand: Operand<'a>) -> Option<Frame<'a>>
    ensures { (names : names.Names) (x y : machine.Operand) → IsKept names x word.entry → IsKept names y operand.entry →
        BothOrNone (IsKeptFrame names) (machine.place (machine.One x) y) result }
{
    let Some(word) = word_of(word) else {
        return none_of(operand);
    };
    if !is_text(word, b"not") {
        return none_of(operand);
    }
    let Some(cond) = as_cond(operand) else {
        return None;
    };
    Some(Frame::NotOf(cond))
}

/// The frame with one operand more.
pub fn place<'a>(frame: Frame<'a>, operand: Operand<'a>) -> Option<Frame<'a>>
    ensures { (names : names.Names) (f : machine.Frame) (x : machine.Operand) → IsKeptFrame names f frame.entry → IsKept names x operand.entry →
        BothOrNone (IsKeptFrame names) (machine.place f x) result }
{
    match frame {
        Frame::Empty => Some(Frame::One(operand)),
        Frame::Turned => Some(Frame::Neg(operand)),
        Frame::One(word) => after_word(word, operand),
        Frame::After(a, mark) => Some(Frame::Two(a, mark, operand)),
        Frame::First => Some(Frame::Second(operand)),
        Frame::Second(a) => Some(Frame::Both(a, operand)),
        Frame::Neg(a) => none_of((a, operand)),
        Frame::Two(a, _, b) => none_of((a, b, operand)),
        Frame::NotOf(cond) => none_of((cond, operand)),
        Frame::Both(a, b) => none_of((a, b, operand)),
    }
}

/// One operand in parentheses: `-` and digits are an expression.
fn one_closed<'a>(alloc: Global, operand: Operand<'a>) -> Result<Option<Content<'a>>, AllocError>
    requires kept { (names : names.Names) × (x : machine.Operand) × IsKept names x operand }
    ensures { IfOk result (λ content. (names : names.Names) (x : machine.Operand) → IsKept names x operand.entry →
        BothOrNone (IsKeptContent names) (machine.closed (machine.One x)) content) }
{
    match operand {
        Operand::Signed(digits) => {
            let made = negate(alloc, num_literal(false, digits))?;
            Ok(Some(Content::Value(Operand::Num(made))))
        }
        other => Ok(Some(Content::Single(other))),
    }
}

/// The negative of an operand that stands after `-`.
fn neg_closed<'a>(
    alloc: Global,
    names: &Names<'_>,
    operand: Operand<'a>,
) -> Result<Option<Content<'a>>, AllocError>
    requires few { IsFew names.now }
    requires kept { (x : machine.Operand) × IsKept names.now x operand }
    ensures { IfOk result (λ content. (x : machine.Operand) → IsKept names.now x operand.entry →
        BothOrNone (IsKeptContent names.now) (machine.closed (machine.Neg x)) content) }
{
    let Some(num) = as_num(names, operand) else {
        return Ok(None);
    };
    Ok(Some(Content::Value(Operand::Num(negate(alloc, num)?))))
}

/// Two numbers with a comma between.
fn couple_of<'a>(names: &Names<'_>, a: Operand<'a>, b: Operand<'a>) -> Option<Content<'a>>
    requires few { IsFew names.now }
    requires kept { ((x : machine.Operand) × IsKept names.now x a) × ((y : machine.Operand) × IsKept names.now y b) }
    ensures { (x y : machine.Operand) → IsKept names.now x a.entry → IsKept names.now y b.entry →
        BothOrNone (IsKeptContent names.now) (machine.couple (machine.as_num x) (machine.as_num y)) result }
{
    let Some(a) = as_num(names, a) else {
        return none_of(b);
    };
    let Some(b) = as_num(names, b) else {
        return none_of(a);
    };
    Some(Content::Couple(a, b))
}

/// Two operands in parentheses with a mark between.
fn two_closed<'a>(
    alloc: Global,
    names: &Names<'_>,
    a: Operand<'a>,
    mark: Mark,
    b: Operand<'a>,
) -> Result<Option<Content<'a>>, AllocError>
    requires few { IsFew names.now }
    requires kept { ((x : machine.Operand) × IsKept names.now x a) × ((y : machine.Operand) × IsKept names.now y b) }
    ensures { IfOk result (λ content. (x y : machine.Operand) → IsKept names.now x a.entry → IsKept names.now y b.entry →
        BothOrNone (IsKeptContent names.now) (machine.closed (machine.Two x mark y)) content) }
{
    match mark {
        Mark::Comma => Ok(couple_of(names, a, b)),
        other => match joined(alloc, names, a, other, b)? {
            None => Ok(None),
            Some(value) => Ok(Some(Content::Value(value))),
        },
    }
}

/// What a frame holds when its parenthesis is closed.
pub fn closed<'a>(
    alloc: Global,
    names: &Names<'_>,
    frame: Frame<'a>,
) -> Result<Option<Content<'a>>, AllocError>
    requires few { IsFew names.now }
    requires kept { (f : machine.Frame) × IsKeptFrame names.now f frame }
    ensures { IfOk result (λ content. (f : machine.Frame) → IsKeptFrame names.now f frame.entry →
        BothOrNone (IsKeptContent names.now) (machine.closed f) content) }
{
    match frame {
        Frame::One(operand) => one_closed(alloc, operand),
        Frame::Neg(operand) => neg_closed(alloc, names, operand),
        Frame::Two(a, mark, b) => two_closed(alloc, names, a, mark, b),
        Frame::NotOf(cond) => Ok(Some(Content::Value(Operand::Cond(deny(alloc, cond)?)))),
        Frame::Empty => Ok(None),
        Frame::Turned => Ok(None),
        Frame::After(a, _) => Ok(none_of(a)),
        Frame::First => Ok(None),
        Frame::Second(a) => Ok(none_of(a)),
        Frame::Both(a, b) => Ok(none_of((a, b))),
    }
}

/// A word and the content of parentheses after it.
fn applied<'a>(
    alloc: Global,
    names: &Names<'_>,
    word: Operand<'a>,
    content: Content<'a>,
) -> Result<Option<Operand<'a>>, AllocError>
    requires few { IsFew names.now }
    ensures { IfOk result (λ made. (x : machine.Operand) (k : machine.Content) → IsKept names.now x word.entry → IsKeptContent names.now k content.entry →
        BothOrNone (IsKept names.now) (machine.applied x k) made) }
{
    match content {
        Content::Value(value) => Ok(none_of((word, value))),
        Content::Single(set) => counted(alloc, names, word, set),
        Content::Couple(a, b) => chosen(alloc, word, a, b),
    }
}

/// One operand, before parentheses.
fn one_with_last<'a>(
    alloc: Global,
    names: &Names<'_>,
    last: Operand<'a>,
    content: Content<'a>,
) -> Result<Option<Frame<'a>>, AllocError>
    requires few { IsFew names.now }
    ensures { IfOk result (λ next. (y : machine.Operand) (k : machine.Content) → IsKept names.now y last.entry → IsKeptContent names.now k content.entry →
        BothOrNone (IsKeptFrame names.now) (machine.with_last (machine.One y) k) next) }
{
    match applied(alloc, names, last, content) {
        Ok(Some(last)) => Ok(Some(Frame::One(last))),
        Ok(None) => Ok(None),
        Err(error) => Err(error),
    }
}

/// `-` and an operand, before parentheses.
fn neg_with_last<'a>(
    alloc: Global,
    names: &Names<'_>,
    last: Operand<'a>,
    content: Content<'a>,
) -> Result<Option<Frame<'a>>, AllocError>
    requires few { IsFew names.now }
    ensures { IfOk result (λ next. (y : machine.Operand) (k : machine.Content) → IsKept names.now y last.entry → IsKeptContent names.now k content.entry →
        BothOrNone (IsKeptFrame names.now) (machine.with_last (machine.Neg y) k) next) }
{
    match applied(alloc, names, last, content) {
        Ok(Some(last)) => Ok(Some(Frame::Neg(last))),
        Ok(None) => Ok(None),
        Err(error) => Err(error),
    }
}

/// The first of two operands side by side, before parentheses.
fn second_with_last<'a>(
    alloc: Global,
    names: &Names<'_>,
    last: Operand<'a>,
    content: Content<'a>,
) -> Result<Option<Frame<'a>>, AllocError>
    requires few { IsFew names.now }
    ensures { IfOk result (λ next. (y : machine.Operand) (k : machine.Content) → IsKept names.now y last.entry → IsKeptContent names.now k content.entry →
        BothOrNone (IsKeptFrame names.now) (machine.with_last (machine.Second y) k) next) }
{
    match applied(alloc, names, last, content) {
        Ok(Some(last)) => Ok(Some(Frame::Second(last))),
        Ok(None) => Ok(None),
        Err(error) => Err(error),
    }
}

/// Two operands with a mark between, the last of them before parentheses.
fn two_with_last<'a>(
    alloc: Global,
    names: &Names<'_>,
    a: Operand<'a>,
    mark: Mark,
    last: Operand<'a>,
    content: Content<'a>,
) -> Result<Option<Frame<'a>>, AllocError>
    requires few { IsFew names.now }
    ensures { IfOk result (λ next. (x y : machine.Operand) (k : machine.Content) → IsKept names.now x a.entry → IsKept names.now y last.entry → IsKeptContent names.now k content.entry →
        BothOrNone (IsKeptFrame names.now) (machine.with_last (machine.Two x mark y) k) next) }
{
    match applied(alloc, names, last, content) {
        Ok(Some(b)) => Ok(Some(Frame::Two(a, mark, b))),
        Ok(None) => Ok(none_of(a)),
        Err(error) => {
            drop(a);
            Err(error)
        }
    }
}

/// Two operands side by side, the last of them before parentheses.
fn both_with_last<'a>(
    alloc: Global,
    names: &Names<'_>,
    a: Operand<'a>,
    last: Operand<'a>,
    content: Content<'a>,
) -> Result<Option<Frame<'a>>, AllocError>
    requires few { IsFew names.now }
    ensures { IfOk result (λ next. (x y : machine.Operand) (k : machine.Content) → IsKept names.now x a.entry → IsKept names.now y last.entry → IsKeptContent names.now k content.entry →
        BothOrNone (IsKeptFrame names.now) (machine.with_last (machine.Both x y) k) next) }
{
    match applied(alloc, names, last, content) {
        Ok(Some(b)) => Ok(Some(Frame::Both(a, b))),
        Ok(None) => Ok(none_of(a)),
        Err(error) => {
            drop(a);
            Err(error)
        }
    }
}

/// The frame with its last operand applied to the content of parentheses.
pub fn with_last<'a>(
    alloc: Global,
    names: &Names<'_>,
    frame: Frame<'a>,
    content: Content<'a>,
) -> Result<Option<Frame<'a>>, AllocError>
    requires few { IsFew names.now }
    ensures { IfOk result (λ next. (f : machine.Frame) (k : machine.Content) → IsKeptFrame names.now f frame.entry → IsKeptContent names.now k content.entry →
        BothOrNone (IsKeptFrame names.now) (machine.with_last f k) next) }
{
    match frame {
        Frame::One(last) => one_with_last(alloc, names, last, content),
        Frame::Neg(last) => neg_with_last(alloc, names, last, content),
        Frame::Second(last) => second_with_last(alloc, names, last, content),
        Frame::Two(a, mark, last) => two_with_last(alloc, names, a, mark, last, content),
        Frame::Both(a, last) => both_with_last(alloc, names, a, last, content),
        Frame::Empty => Ok(none_of(content)),
        Frame::Turned => Ok(none_of(content)),
        Frame::After(a, _) => Ok(none_of((a, content))),
        Frame::NotOf(cond) => Ok(none_of((cond, content))),
        Frame::First => Ok(none_of(content)),
    }
}

/// The frame after parentheses with this content.
pub fn received<'a>(
    alloc: Global,
    names: &Names<'_>,
    frame: Frame<'a>,
    content: Content<'a>,
) -> Result<Option<Frame<'a>>, AllocError>
    requires few { IsFew names.now }
    ensures { IfOk result (λ next. (f : machine.Frame) (k : machine.Content) → IsKeptFrame names.now f frame.entry → IsKeptContent names.now k content.entry →
        BothOrNone (IsKeptFrame names.now) (machine.received f k) next) }
{
    match content {
        Content::Value(value) => Ok(place(frame, value)),
        other => with_last(alloc, names, frame, other),
    }
}
