//! The shape of a line: which statement its tokens say.

ghost use Rattle.hk_text.specs.Tokens.{IsTokenIn};
ghost use Rattle.std.specs.Prelude.{◌≡◌, ◌∷◌, ◌↔◌, [], All, IsTrue, IfOk, IfSome, IsNone, codes};
ghost use Rattle.hk_text.specs.Texts.{texts_of};
ghost use Rattle.hk_lines.specs.Shapes.{IsShapeOf, SayNothing};

use crate::counts::{Counting, Row, counting_of, rows_of};
use crate::phrases::{Term, Values, bounds_of, names_of, number_of, set_of, terms_of};
use hk_base::List;
use hk_text::{Token, after_text, has_text, word_of};
use std::alloc::{AllocError, Global};

/// What the tokens of a line say, with each number above all limits as one such number.
#[derive(Drop)]
pub enum Shape<'a> {
    /// `hkm 1`
    Start,
    /// `var NAME in SET`
    Variable {
        name: &'a [u8],
        set: List<Values>,
    },
    /// `alldifferent (NAME, NAME)`
    Distinct {
        names: List<&'a [u8]>,
    },
    /// `among (NAME, NAME) SET LEAST..MOST`
    Among {
        counting: Counting<'a>,
    },
    /// `sequence WINDOW (NAME, NAME) SET LEAST..MOST`
    Sequence {
        window: u64,
        counting: Counting<'a>,
    },
    /// `gcc (NAME, NAME) ROW, ROW`, where a row is `VALUE : LEAST..MOST`
    Gcc {
        names: List<&'a [u8]>,
        rows: List<Row<'a>>,
    },
    /// `sum (TERM, TERM) LEAST..MOST`
    Total {
        terms: List<Term<'a>>,
        least: i64,
        most: i64,
    },
    /// `minimize (TERM, TERM)`
    Objective {
        terms: List<Term<'a>>,
    },
    /// `group`
    NewGroup,
}

/// The shape of a line's tokens, where they have one.
pub fn shape_of<'a>(
    alloc: Global,
    line: &'a [u8],
    tokens: &[Token],
) -> Result<Option<Shape<'a>>, AllocError>
    requires { All (IsTokenIn line.now) tokens.now }
    ensures shape { IfOk result (λ found. IfSome found (IsShapeOf (texts_of line.now tokens.now))) }
    ensures none { IfOk result (λ found. IsNone found → SayNothing (texts_of line.now tokens.now)) }
{
    if is_start(line, tokens) {
        return Ok(Some(Shape::Start));
    }
    if is_new_group(line, tokens) {
        return Ok(Some(Shape::NewGroup));
    }
    if let Some(rest) = after_text(line, tokens, b"var") {
        return variable_of(alloc, line, rest);
    }
    if let Some(rest) = after_text(line, tokens, b"alldifferent") {
        return scope_of(alloc, line, rest);
    }
    if let Some(rest) = after_text(line, tokens, b"among") {
        return among_of(alloc, line, rest);
    }
    if let Some(rest) = after_text(line, tokens, b"sequence") {
        return sequence_of(alloc, line, rest);
    }
    if let Some(rest) = after_text(line, tokens, b"gcc") {
        return gcc_of(alloc, line, rest);
    }
    if let Some(rest) = after_text(line, tokens, b"sum") {
        return total_of(alloc, line, rest);
    }
    if let Some(rest) = after_text(line, tokens, b"minimize") {
        return objective_of(alloc, line, rest);
    }
    Ok(None)
}

/// Whether the tokens are `hkm 1`.
fn is_start(line: &[u8], tokens: &[Token]) -> bool
    requires { All (IsTokenIn line.now) tokens.now }
    ensures { IsTrue result ↔ (texts_of line.now tokens.now ≡ codes "hkm" ∷ codes "1" ∷ []) }
{
    match tokens {
        [word, version] => has_text(line, *word, b"hkm") && has_text(line, *version, b"1"),
        _ => false,
    }
}

/// Whether the tokens are the one word `group`.
fn is_new_group(line: &[u8], tokens: &[Token]) -> bool
    requires { All (IsTokenIn line.now) tokens.now }
    ensures { IsTrue result ↔ (texts_of line.now tokens.now ≡ codes "group" ∷ []) }
{
    match tokens {
        [word] => has_text(line, *word, b"group"),
        _ => false,
    }
}

/// The shape of `var` and these tokens.
fn variable_of<'a>(
    alloc: Global,
    line: &'a [u8],
    tokens: &[Token],
) -> Result<Option<Shape<'a>>, AllocError>
    requires { All (IsTokenIn line.now) tokens.now }
    ensures shape { IfOk result (λ found. IfSome found (IsShapeOf (codes "var" ∷ texts_of line.now tokens.now))) }
    ensures none { IfOk result (λ found. IsNone found → SayNothing (codes "var" ∷ texts_of line.now tokens.now)) }
{
    let Some((name, after)) = word_of(line, tokens) else {
        return Ok(None);
    };
    let Some(after) = after_text(line, after, b"in") else {
        return Ok(None);
    };
    let Some((set, rest)) = set_of(alloc, line, after)? else {
        return Ok(None);
    };
    if !rest.is_empty() {
        return Ok(None);
    }
    Ok(Some(Shape::Variable { name, set }))
}

/// The shape of `alldifferent` and these tokens.
fn scope_of<'a>(
    alloc: Global,
    line: &'a [u8],
    tokens: &[Token],
) -> Result<Option<Shape<'a>>, AllocError>
    requires { All (IsTokenIn line.now) tokens.now }
    ensures shape { IfOk result (λ found. IfSome found (IsShapeOf (codes "alldifferent" ∷ texts_of line.now tokens.now))) }
    ensures none { IfOk result (λ found. IsNone found → SayNothing (codes "alldifferent" ∷ texts_of line.now tokens.now)) }
{
    let Some(open) = after_text(line, tokens, b"(") else {
        return Ok(None);
    };
    let Some((names, rest)) = names_of(alloc, line, open)? else {
        return Ok(None);
    };
    if !rest.is_empty() {
        return Ok(None);
    }
    Ok(Some(Shape::Distinct { names }))
}

/// The shape of `among` and these tokens.
fn among_of<'a>(
    alloc: Global,
    line: &'a [u8],
    tokens: &[Token],
) -> Result<Option<Shape<'a>>, AllocError>
    requires { All (IsTokenIn line.now) tokens.now }
    ensures shape { IfOk result (λ found. IfSome found (IsShapeOf (codes "among" ∷ texts_of line.now tokens.now))) }
    ensures none { IfOk result (λ found. IsNone found → SayNothing (codes "among" ∷ texts_of line.now tokens.now)) }
{
    let Some(open) = after_text(line, tokens, b"(") else {
        return Ok(None);
    };
    let Some(counting) = counting_of(alloc, line, open)? else {
        return Ok(None);
    };
    Ok(Some(Shape::Among { counting }))
}

/// The shape of `sequence` and these tokens.
fn sequence_of<'a>(
    alloc: Global,
    line: &'a [u8],
    tokens: &[Token],
) -> Result<Option<Shape<'a>>, AllocError>
    requires { All (IsTokenIn line.now) tokens.now }
    ensures shape { IfOk result (λ found. IfSome found (IsShapeOf (codes "sequence" ∷ texts_of line.now tokens.now))) }
    ensures none { IfOk result (λ found. IsNone found → SayNothing (codes "sequence" ∷ texts_of line.now tokens.now)) }
{
    let Some((window, after)) = number_of(line, tokens) else {
        return Ok(None);
    };
    let Some(open) = after_text(line, after, b"(") else {
        return Ok(None);
    };
    let Some(counting) = counting_of(alloc, line, open)? else {
        return Ok(None);
    };
    Ok(Some(Shape::Sequence { window, counting }))
}

/// The shape of `gcc` and these tokens.
fn gcc_of<'a>(
    alloc: Global,
    line: &'a [u8],
    tokens: &[Token],
) -> Result<Option<Shape<'a>>, AllocError>
    requires { All (IsTokenIn line.now) tokens.now }
    ensures shape { IfOk result (λ found. IfSome found (IsShapeOf (codes "gcc" ∷ texts_of line.now tokens.now))) }
    ensures none { IfOk result (λ found. IsNone found → SayNothing (codes "gcc" ∷ texts_of line.now tokens.now)) }
{
    let Some(open) = after_text(line, tokens, b"(") else {
        return Ok(None);
    };
    let Some((names, rest)) = names_of(alloc, line, open)? else {
        return Ok(None);
    };
    let Some(rows) = rows_of(alloc, line, rest)? else {
        return Ok(None);
    };
    Ok(Some(Shape::Gcc { names, rows }))
}

/// The shape of `sum` and these tokens.
fn total_of<'a>(
    alloc: Global,
    line: &'a [u8],
    tokens: &[Token],
) -> Result<Option<Shape<'a>>, AllocError>
    requires { All (IsTokenIn line.now) tokens.now }
    ensures shape { IfOk result (λ found. IfSome found (IsShapeOf (codes "sum" ∷ texts_of line.now tokens.now))) }
    ensures none { IfOk result (λ found. IsNone found → SayNothing (codes "sum" ∷ texts_of line.now tokens.now)) }
{
    let Some(open) = after_text(line, tokens, b"(") else {
        return Ok(None);
    };
    let Some((terms, rest)) = terms_of(alloc, line, open)? else {
        return Ok(None);
    };
    let Some((least, most)) = bounds_of(line, rest) else {
        return Ok(None);
    };
    Ok(Some(Shape::Total { terms, least, most }))
}

/// The shape of `minimize` and these tokens.
fn objective_of<'a>(
    alloc: Global,
    line: &'a [u8],
    tokens: &[Token],
) -> Result<Option<Shape<'a>>, AllocError>
    requires { All (IsTokenIn line.now) tokens.now }
    ensures shape { IfOk result (λ found. IfSome found (IsShapeOf (codes "minimize" ∷ texts_of line.now tokens.now))) }
    ensures none { IfOk result (λ found. IsNone found → SayNothing (codes "minimize" ∷ texts_of line.now tokens.now)) }
{
    let Some(open) = after_text(line, tokens, b"(") else {
        return Ok(None);
    };
    let Some((terms, rest)) = terms_of(alloc, line, open)? else {
        return Ok(None);
    };
    if !rest.is_empty() {
        return Ok(None);
    }
    Ok(Some(Shape::Objective { terms }))
}
