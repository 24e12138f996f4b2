//! The shape of a post: the specification, the arguments and the names of a scope that its tokens say.

ghost use Rattle.hk_text.specs.Tokens.{IsTokenIn};
ghost use Rattle.std.specs.Prelude.{◌∷◌, List as Seq, ℕ, All, IfOk, IfSome, IsNone, map, codes};
ghost use Rattle.hk_text.specs.Texts.{texts_of};
ghost use Rattle.hk_lines.specs.PostShapes.{plain_arg, args_of, capped_arg, IsPostShapeOf, SayNoPost};
ghost use Rattle.hk_lines.specs.Posts.{NumbersThen, ArgThen, ArgsThen, ArgListThen, IsWholeScope};
ghost use Rattle.hk_lines.specs.Shapes.{capped_signed};
ghost use Rattle.hk_lines.specs.inside.Capped.{BeginsCapped, BeginsWithout};

use crate::phrases::{Values, names_of, set_of, signed_of};
use hk_base::List;
use hk_text::{Token, after_text, word_of};
use std::alloc::{AllocError, Global};

/// An argument of a post.
#[derive(Drop)]
pub enum PostArg {
    /// `SIGNED`
    Number(i64),
    /// `{ITEM, ITEM}`
    Set(List<Values>),
    /// `[SIGNED, SIGNED]`
    Numbers(List<i64>),
}

/// `post NAME (ARG, ARG) (NAME, NAME)`, with each number above all limits as one such number.
#[derive(Drop)]
pub struct PostShape<'a> {
    pub spec: &'a [u8],
    pub args: List<PostArg>,
    pub names: List<&'a [u8]>,
}

/// The shape of the post whose tokens after `post` these are, where they are some.
pub fn post_of<'a>(
    alloc: Global,
    line: &'a [u8],
    tokens: &[Token],
) -> Result<Option<PostShape<'a>>, AllocError>
    requires { All (IsTokenIn line.now) tokens.now }
    ensures shape { IfOk result (λ found. IfSome found (IsPostShapeOf (codes "post" ∷ texts_of line.now tokens.now))) }
    ensures none { IfOk result (λ found. IsNone found → SayNoPost (codes "post" ∷ texts_of line.now tokens.now)) }
{
    let Some((spec, after)) = word_of(line, tokens) else {
        return Ok(None);
    };
    let Some(open) = after_text(line, after, b"(") else {
        return Ok(None);
    };
    let Some((args, rest)) = arg_list_of(alloc, line, open)? else {
        return Ok(None);
    };
    let Some(names) = whole_scope_of(alloc, line, rest)? else {
        return Ok(None);
    };
    Ok(Some(PostShape { spec, args, names }))
}

/// The names of a scope, where the tokens are it and no more.
fn whole_scope_of<'a>(
    alloc: Global,
    line: &'a [u8],
    tokens: &[Token],
) -> Result<Option<List<&'a [u8]>>, AllocError>
    requires { All (IsTokenIn line.now) tokens.now }
    ensures some { IfOk result (λ read. IfSome read (λ names. IsWholeScope (texts_of line.now tokens.now) (map (λ name. name.now) names))) }
    ensures none { IfOk result (λ read. IsNone read → (names : Seq (Seq ℕ)) → IsWholeScope (texts_of line.now tokens.now) names → ⊥) }
{
    let Some(open) = after_text(line, tokens, b"(") else {
        return Ok(None);
    };
    let Some((names, rest)) = names_of(alloc, line, open)? else {
        return Ok(None);
    };
    if !rest.is_empty() {
        return Ok(None);
    }
    Ok(Some(names))
}

/// No argument or some, up to a closing parenthesis, and the tokens after that.
fn arg_list_of<'t>(
    alloc: Global,
    line: &[u8],
    tokens: &'t [Token],
) -> Result<Option<(List<PostArg>, &'t [Token])>, AllocError>
    requires { All (IsTokenIn line.now) tokens.now }
    ensures some { IfOk result (λ read. IfSome read (λ found. BeginsCapped ArgListThen (map capped_arg) (texts_of line.now tokens.now) (args_of found.0) (texts_of line.now found.1.now))) }
    ensures tokens { IfOk result (λ read. IfSome read (λ found. All (IsTokenIn line.now) found.1.now)) }
    ensures none { IfOk result (λ read. IsNone read → BeginsWithout ArgListThen (texts_of line.now tokens.now)) }
{
    if let Some(rest) = after_text(line, tokens, b")") {
        return Ok(Some((List::new(alloc), rest)));
    }
    args_of(alloc, line, tokens)
}

/// Arguments up to a closing parenthesis, and the tokens after that.
fn args_of<'t>(
    alloc: Global,
    line: &[u8],
    tokens: &'t [Token],
) -> Result<Option<(List<PostArg>, &'t [Token])>, AllocError>
    requires { All (IsTokenIn line.now) tokens.now }
    ensures some { IfOk result (λ read. IfSome read (λ found. BeginsCapped ArgsThen (map capped_arg) (texts_of line.now tokens.now) (args_of found.0) (texts_of line.now found.1.now))) }
    ensures tokens { IfOk result (λ read. IfSome read (λ found. All (IsTokenIn line.now) found.1.now)) }
    ensures none { IfOk result (λ read. IsNone read → BeginsWithout ArgsThen (texts_of line.now tokens.now)) }
{
    let mut found = List::new(alloc);
    let mut rest = tokens;
    'found: loop {
        let Some((arg, after)) = arg_of(alloc, line, rest)? else {
            return Ok(None);
        };
        found.push(arg)?;
        if let Some(more) = after_text(line, after, b",") {
            rest = more;
            continue;
        }
        let Some(end) = after_text(line, after, b")") else {
            return Ok(None);
        };
        return Ok(Some((found, end)));
    }
}

/// An argument, and the tokens after it.
fn arg_of<'t>(
    alloc: Global,
    line: &[u8],
    tokens: &'t [Token],
) -> Result<Option<(PostArg, &'t [Token])>, AllocError>
    requires { All (IsTokenIn line.now) tokens.now }
    ensures some { IfOk result (λ read. IfSome read (λ found. BeginsCapped ArgThen capped_arg (texts_of line.now tokens.now) (plain_arg found.0) (texts_of line.now found.1.now))) }
    ensures tokens { IfOk result (λ read. IfSome read (λ found. All (IsTokenIn line.now) found.1.now)) }
    ensures none { IfOk result (λ read. IsNone read → BeginsWithout ArgThen (texts_of line.now tokens.now)) }
{
    if let Some((value, rest)) = signed_of(line, tokens) {
        return Ok(Some((PostArg::Number(value), rest)));
    }
    if let Some(open) = after_text(line, tokens, b"[") {
        let Some((numbers, rest)) = numbers_of(alloc, line, open)? else {
            return Ok(None);
        };
        return Ok(Some((PostArg::Numbers(numbers), rest)));
    }
    if after_text(line, tokens, b"{").is_none() {
        return Ok(None);
    }
    let Some((set, rest)) = set_of(alloc, line, tokens)? else {
        return Ok(None);
    };
    Ok(Some((PostArg::Set(set), rest)))
}

/// Numbers up to a closing bracket, and the tokens after that.
fn numbers_of<'t>(
    alloc: Global,
    line: &[u8],
    tokens: &'t [Token],
) -> Result<Option<(List<i64>, &'t [Token])>, AllocError>
    requires { All (IsTokenIn line.now) tokens.now }
    ensures some { IfOk result (λ read. IfSome read (λ found. BeginsCapped NumbersThen (map capped_signed) (texts_of line.now tokens.now) found.0 (texts_of line.now found.1.now))) }
    ensures tokens { IfOk result (λ read. IfSome read (λ found. All (IsTokenIn line.now) found.1.now)) }
    ensures none { IfOk result (λ read. IsNone read → BeginsWithout NumbersThen (texts_of line.now tokens.now)) }
{
    let mut numbers = List::new(alloc);
    let mut rest = tokens;
    'numbers: loop {
        let Some((value, after)) = signed_of(line, rest) else {
            return Ok(None);
        };
        numbers.push(value)?;
        if let Some(more) = after_text(line, after, b",") {
            rest = more;
            continue;
        }
        let Some(end) = after_text(line, after, b"]") else {
            return Ok(None);
        };
        return Ok(Some((numbers, end)));
    }
}
