//! The first line of a specification.

ghost use Rattle.std.specs.Prelude.{◌≡◌, ◌∷◌, ◌↔◌, [], false, All, ℕ, List as Seq, IsTrue, IfOk, IfSome, IsNone, length, map, nat_lt};
ghost use Rattle.std.specs.List.{list_any};
ghost use Rattle.std.specs.Str.{bytes_eq};
ghost use Rattle.hk_spec.specs.declared.parts.ParamKind.{ParamKind};
ghost use Rattle.hk_spec.specs.Names.{are_distinct, reserved_words};
ghost use Rattle.hk_text.specs.Texts.{texts_of};
ghost use Rattle.hk_parse.specs.BlockLines.{BeginLimitFault, BeginNameFault, param_names};
ghost use Rattle.hk_parse.specs.inside.Headers.{AreParams, ParamThen, param_text, plain_param};
ghost use Rattle.hk_parse.specs.LineTexts.{Begin, ParamText, SaysLine};
ghost use Rattle.hk_print.specs.Printed.{param_word};
ghost use Rattle.hk_text.specs.Tokens.{IsTokenIn};

use crate::limits::{NAME_BYTES, PARAMS};
use hk_base::{Bytes, List};
use hk_spec::{Param, ParamKind};
use hk_text::{Token, after_text, word_of};
use indexmap::IndexSet;
use std::alloc::{AllocError, Global};

/// The words that have a meaning of their own in expressions.
const RESERVED_WORDS: [&[u8]; 17] = [
    b"v", b"i", b"n", b"best", b"card", b"min", b"max", b"lo", b"hi", b"in", b"notin", b"sub",
    b"and", b"or", b"not", b"true", b"false",
];

/// A parameter as it is written: what it stands for, and its name.
#[derive(Clone, Copy)]
pub struct ParamWords<'a> {
    pub kind: ParamKind,
    pub name: &'a [u8],
}

/// The first line of a specification: its name and its parameters.
#[derive(Drop)]
pub struct Header<'a> {
    pub name: &'a [u8],
    pub params: List<ParamWords<'a>>,
}

/// The first line that the tokens say, where they say one.
pub fn header_of<'a>(
    alloc: Global,
    line: &'a [u8],
    tokens: &[Token],
) -> Result<Option<Header<'a>>, AllocError>
    requires { All (IsTokenIn line.now) tokens.now }
    ensures some { IfOk result (λ read. IfSome read (λ header. SaysLine (texts_of line.now tokens.now) (Begin header.name.now (map plain_param header.params)))) }
    ensures none { IfOk result (λ read. IsNone read → (name : Seq ℕ) (params : Seq ParamText) → SaysLine (texts_of line.now tokens.now) (Begin name params) → ⊥) }
{
    let Some(rest) = after_text(line, tokens, b"spec") else {
        return Ok(None);
    };
    let Some((name, rest)) = word_of(line, rest) else {
        return Ok(None);
    };
    let Some(rest) = after_text(line, rest, b"(") else {
        return Ok(None);
    };
    let Some(params) = params_of(alloc, line, rest)? else {
        return Ok(None);
    };
    Ok(Some(Header { name, params }))
}

/// The parameters that the tokens say up to a closing parenthesis, with which they end.
fn params_of<'a>(
    alloc: Global,
    line: &'a [u8],
    tokens: &[Token],
) -> Result<Option<List<ParamWords<'a>>>, AllocError>
    requires { All (IsTokenIn line.now) tokens.now }
    ensures some { IfOk result (λ read. IfSome read (λ params. AreParams (texts_of line.now tokens.now) (map plain_param params))) }
    ensures none { IfOk result (λ read. IsNone read → (params : Seq ParamText) → AreParams (texts_of line.now tokens.now) params → ⊥) }
{
    let mut params = List::new(alloc);
    match read_params(&mut params, line, tokens) {
        Ok(true) => Ok(Some(params)),
        Ok(false) => {
            drop(params);
            Ok(None)
        }
        Err(error) => {
            drop(params);
            Err(error)
        }
    }
}

/// Reads the parameters that the tokens say up to a closing parenthesis: whether they end with one.
fn read_params<'a>(
    params: &mut List<ParamWords<'a>>,
    line: &'a [u8],
    tokens: &[Token],
) -> Result<bool, AllocError>
    requires tokens { All (IsTokenIn line.now) tokens.now }
    requires empty { params.old ≡ [] }
    ensures some { IfOk result (λ read. IsTrue read → AreParams (texts_of line.now tokens.now) (map plain_param params.new)) }
    ensures none { IfOk result (λ read. read ≡ false → (all : Seq ParamText) → AreParams (texts_of line.now tokens.now) all → ⊥) }
{
    if is_only(line, tokens, b")") {
        return Ok(true);
    }
    let mut rest = tokens;
    'params: loop {
        let Some((param, after)) = param_of(line, rest) else {
            return Ok(false);
        };
        params.push(param)?;
        if let Some(more) = after_text(line, after, b",") {
            rest = more;
            continue;
        }
        if !is_only(line, after, b")") {
            return Ok(false);
        }
        return Ok(true);
    }
}

/// A parameter, and the tokens after it.
fn param_of<'a, 't>(line: &'a [u8], tokens: &'t [Token]) -> Option<(ParamWords<'a>, &'t [Token])>
    requires { All (IsTokenIn line.now) tokens.now }
    ensures some { IfSome result (λ found. ParamThen (texts_of line.now tokens.now) (plain_param found.0) (texts_of line.now found.1.now)) }
    ensures tokens { IfSome result (λ found. All (IsTokenIn line.now) found.1.now) }
    ensures none { IsNone result → (param : ParamText) (rest : Seq (Seq ℕ)) → ParamThen (texts_of line.now tokens.now) param rest → ⊥ }
{
    let (word, after) = word_of(line, tokens)?;
    let kind = param_kind(word)?;
    let (name, rest) = word_of(line, after)?;
    Some((ParamWords { kind, name }, rest))
}

/// What a parameter stands for whose word this is.
fn param_kind(word: &[u8]) -> Option<ParamKind>
    ensures some { IfSome result (λ kind. param_word kind ≡ word.now) }
    ensures none { IsNone result → (kind : ParamKind) → param_word kind ≡ word.now → ⊥ }
{
    if word == b"num".as_slice() {
        return Some(ParamKind::Num);
    }
    if word == b"set".as_slice() {
        return Some(ParamKind::Set);
    }
    if word == b"list".as_slice() {
        return Some(ParamKind::List);
    }
    None
}

/// Whether there is one token, with this text.
pub fn is_only(line: &[u8], tokens: &[Token], text: &[u8]) -> bool
    requires { All (IsTokenIn line.now) tokens.now }
    ensures { IsTrue result ↔ (texts_of line.now tokens.now ≡ text.now ∷ []) }
{
    match tokens {
        [token] => hk_text::has_text(line, *token, text),
        _ => false,
    }
}

/// Whether a parameter's name is a reserved word, or stands twice.
pub fn has_taken_name(alloc: Global, params: &[ParamWords<'_>]) -> Result<bool, AllocError>
    ensures { IfOk result (λ taken. IsTrue taken ↔ BeginNameFault (map plain_param params.now)) }
{
    if has_reserved_name(params) {
        return Ok(true);
    }
    Ok(!have_distinct_names(alloc, params)?)
}

/// Whether the name of a parameter has a meaning of its own in expressions.
fn has_reserved_name(params: &[ParamWords<'_>]) -> bool
    ensures { result ≡ list_any (λ param. list_any (bytes_eq param.name.now) reserved_words) params.now }
{
    params.iter().any(|param| is_reserved(param.name))
}

/// Whether no two parameters have one name.
fn have_distinct_names(alloc: Global, params: &[ParamWords<'_>]) -> Result<bool, AllocError>
    ensures { IfOk result (λ distinct. distinct ≡ are_distinct (param_names (map plain_param params.now))) }
{
    let mut seen = IndexSet::new(alloc);
    let distinct = add_names(&mut seen, params);
    drop(seen);
    distinct
}

/// Adds the names of parameters up to one that stands there already: whether there is none.
fn add_names<'a>(
    seen: &mut IndexSet<&'a [u8]>,
    params: &[ParamWords<'a>],
) -> Result<bool, AllocError>
    requires { seen.old.keys ≡ [] }
    ensures { IfOk result (λ distinct. distinct ≡ are_distinct (param_names (map plain_param params.now))) }
{
    for param in params {
        if !seen.insert(param.name)? {
            return Ok(false);
        }
    }
    Ok(true)
}

/// Whether a word has a meaning of its own in expressions.
pub fn is_reserved(word: &[u8]) -> bool
    ensures { result ≡ list_any (bytes_eq word.now) reserved_words }
{
    is_among(word, &RESERVED_WORDS)
}

/// Whether a word is one of these.
fn is_among(word: &[u8], words: &[&[u8]]) -> bool
    ensures { result ≡ list_any (λ other. bytes_eq word.now other.now) words.now }
{
    words.iter().any(|other| word == *other)
}

/// Whether a name of a first line is too long, or its parameters are too many.
pub fn passes_limit(name: &[u8], params: &[ParamWords<'_>]) -> bool
    ensures { IsTrue result ↔ BeginLimitFault name.now (map plain_param params.now) }
{
    if name.len() > NAME_BYTES {
        return true;
    }
    if params.len() > PARAMS {
        return true;
    }
    has_long_name(params)
}

/// Whether the name of a parameter is too long.
fn has_long_name(params: &[ParamWords<'_>]) -> bool
    ensures { result ≡ list_any (λ param. nat_lt 32 (length param.name.now)) params.now }
{
    params.iter().any(|param| param.name.len() > NAME_BYTES)
}

/// The parameters with names of their own.
pub fn declared_params(alloc: Global, params: &[ParamWords<'_>]) -> Result<List<Param>, AllocError>
    ensures { IfOk result (λ declared. map param_text declared ≡ map plain_param params.now) }
{
    let mut declared = List::new(alloc);
    for param in params {
        declared.push(Param {
            name: bytes_of(alloc, param.name)?,
            kind: param.kind,
        })?;
    }
    Ok(declared)
}

/// Bytes of their own.
pub fn bytes_of(alloc: Global, text: &[u8]) -> Result<Bytes, AllocError>
    ensures { IfOk result (λ bytes. bytes ≡ text.now) }
{
    let mut bytes = Bytes::new(alloc);
    bytes.push_all(text)?;
    Ok(bytes)
}
