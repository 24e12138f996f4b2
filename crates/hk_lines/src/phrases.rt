//! The phrases of a line: what its tokens begin with, and the tokens after that.

ghost use Rattle.hk_text.specs.Tokens.{IsTokenIn};
ghost use Rattle.std.specs.Prelude.{◌≡◌, ◌≤◌, [], ℤ, pos, neg_ℤ, All, IfOk, IfSome, IsNone, map};
ghost use Rattle.hk_text.specs.Texts.{text_of, texts_of};
ghost use Rattle.hk_lines.specs.Limits.{above_limits};
ghost use Rattle.hk_lines.specs.Plain.{values_of, terms_of, plain_values, plain_term};
ghost use Rattle.hk_lines.specs.Phrases.{SignedThen, ItemsThen, SetThen, TermsThen, BoundsThen, RangeThen, NamesThen};
ghost use Rattle.hk_lines.specs.inside.Pieces.{NumberThen, ItemThen, TermThen};
ghost use Rattle.hk_lines.specs.Shapes.{capped, capped_signed, capped_values, capped_term};
ghost use Rattle.hk_lines.specs.inside.Capped.{BeginsCapped, BeginsWithout, AreBounds};

use hk_base::List;
use hk_text::{Token, after_text, number_up_to, text_of, word_of};
use std::alloc::{AllocError, Global};

/// A number above all limits. It stands for each greater one, so that a number may have any length.
pub const CAP: u64 = 1_000_000_000_001;

/// The values from `first` to `last`.
#[derive(Clone, Copy)]
pub struct Values {
    pub first: u64,
    pub last: u64,
}

/// A coefficient and the name of a variable.
#[derive(Clone, Copy)]
pub struct Term<'a> {
    pub coef: i64,
    pub name: &'a [u8],
}

/// A number without a needless zero, and the tokens after it.
pub fn number_of<'t>(line: &[u8], tokens: &'t [Token]) -> Option<(u64, &'t [Token])>
    requires { All (IsTokenIn line.now) tokens.now }
    ensures some { IfSome result (λ found. BeginsCapped NumberThen capped (texts_of line.now tokens.now) found.0 (texts_of line.now found.1.now)) }
    ensures tokens { IfSome result (λ found. All (IsTokenIn line.now) found.1.now) }
    ensures small { IfSome result (λ found. found.0 ≤ above_limits) }
    ensures none { IsNone result → BeginsWithout NumberThen (texts_of line.now tokens.now) }
{
    let (token, rest) = tokens.split_first()?;
    let value = number_up_to(text_of(line, *token), CAP)?;
    Some((value, rest))
}

/// A number, or `-` and a number other than 0, and the tokens after it.
pub fn signed_of<'t>(line: &[u8], tokens: &'t [Token]) -> Option<(i64, &'t [Token])>
    requires { All (IsTokenIn line.now) tokens.now }
    ensures some { IfSome result (λ found. BeginsCapped SignedThen capped_signed (texts_of line.now tokens.now) found.0 (texts_of line.now found.1.now)) }
    ensures tokens { IfSome result (λ found. All (IsTokenIn line.now) found.1.now) }
    ensures none { IsNone result → BeginsWithout SignedThen (texts_of line.now tokens.now) }
{
    match after_text(line, tokens, b"-") {
        None => {
            let (value, rest) = number_of(line, tokens)?;
            Some((positive(value), rest))
        }
        Some(after) => {
            let (value, rest) = number_of(line, after)?;
            if value == 0 {
                return None;
            }
            Some((negative(value), rest))
        }
    }
}

/// The number with a plus.
fn positive(value: u64) -> i64
    requires { value ≤ above_limits }
    ensures { result ≡ pos value }
{
    value as i64
}

/// The number with a minus.
fn negative(value: u64) -> i64
    requires { value ≤ above_limits }
    ensures { result ≡ neg_ℤ (pos value) }
{
    -(value as i64)
}

/// A range, and the tokens after it.
pub fn range_of<'t>(line: &[u8], tokens: &'t [Token]) -> Option<(Values, &'t [Token])>
    requires { All (IsTokenIn line.now) tokens.now }
    ensures some { IfSome result (λ found. BeginsCapped RangeThen capped_values (texts_of line.now tokens.now) (plain_values found.0) (texts_of line.now found.1.now)) }
    ensures tokens { IfSome result (λ found. All (IsTokenIn line.now) found.1.now) }
    ensures none { IsNone result → BeginsWithout RangeThen (texts_of line.now tokens.now) }
{
    let (first, after) = number_of(line, tokens)?;
    let after = after_text(line, after, b"..")?;
    let (last, rest) = number_of(line, after)?;
    Some((Values { first, last }, rest))
}

/// A range or else a number, and the tokens after it.
fn item_of<'t>(line: &[u8], tokens: &'t [Token]) -> Option<(Values, &'t [Token])>
    requires { All (IsTokenIn line.now) tokens.now }
    ensures some { IfSome result (λ found. BeginsCapped ItemThen capped_values (texts_of line.now tokens.now) (plain_values found.0) (texts_of line.now found.1.now)) }
    ensures tokens { IfSome result (λ found. All (IsTokenIn line.now) found.1.now) }
    ensures none { IsNone result → BeginsWithout ItemThen (texts_of line.now tokens.now) }
{
    if let Some(range) = range_of(line, tokens) {
        return Some(range);
    }
    let (value, rest) = number_of(line, tokens)?;
    Some((
        Values {
            first: value,
            last: value,
        },
        rest,
    ))
}

/// The numbers and ranges of a set up to its closing brace, and the tokens after that.
fn items_of<'t>(
    alloc: Global,
    line: &[u8],
    tokens: &'t [Token],
) -> Result<Option<(List<Values>, &'t [Token])>, AllocError>
    requires { All (IsTokenIn line.now) tokens.now }
    ensures some { IfOk result (λ read. IfSome read (λ found. BeginsCapped ItemsThen (map capped_values) (texts_of line.now tokens.now) (values_of found.0) (texts_of line.now found.1.now))) }
    ensures tokens { IfOk result (λ read. IfSome read (λ found. All (IsTokenIn line.now) found.1.now)) }
    ensures none { IfOk result (λ read. IsNone read → BeginsWithout ItemsThen (texts_of line.now tokens.now)) }
{
    let mut items = List::new(alloc);
    let mut rest = tokens;
    'items: loop {
        let Some((item, after)) = item_of(line, rest) else {
            return Ok(None);
        };
        items.push(item)?;
        if let Some(more) = after_text(line, after, b",") {
            rest = more;
            continue;
        }
        let Some(end) = after_text(line, after, b"}") else {
            return Ok(None);
        };
        return Ok(Some((items, end)));
    }
}

/// The numbers and ranges of a set, which is a range or stands in braces, and the tokens after it.
pub fn set_of<'t>(
    alloc: Global,
    line: &[u8],
    tokens: &'t [Token],
) -> Result<Option<(List<Values>, &'t [Token])>, AllocError>
    requires { All (IsTokenIn line.now) tokens.now }
    ensures some { IfOk result (λ read. IfSome read (λ found. BeginsCapped SetThen (map capped_values) (texts_of line.now tokens.now) (values_of found.0) (texts_of line.now found.1.now))) }
    ensures tokens { IfOk result (λ read. IfSome read (λ found. All (IsTokenIn line.now) found.1.now)) }
    ensures none { IfOk result (λ read. IsNone read → BeginsWithout SetThen (texts_of line.now tokens.now)) }
{
    if let Some(open) = after_text(line, tokens, b"{") {
        if let Some(rest) = after_text(line, open, b"}") {
            return Ok(Some((List::new(alloc), rest)));
        }
        return items_of(alloc, line, open);
    }
    let Some((range, rest)) = range_of(line, tokens) else {
        return Ok(None);
    };
    let mut items = List::new(alloc);
    items.push(range)?;
    Ok(Some((items, rest)))
}

/// A term, and the tokens after it.
fn term_of<'a, 't>(line: &'a [u8], tokens: &'t [Token]) -> Option<(Term<'a>, &'t [Token])>
    requires { All (IsTokenIn line.now) tokens.now }
    ensures some { IfSome result (λ found. BeginsCapped TermThen capped_term (texts_of line.now tokens.now) (plain_term found.0) (texts_of line.now found.1.now)) }
    ensures tokens { IfSome result (λ found. All (IsTokenIn line.now) found.1.now) }
    ensures none { IsNone result → BeginsWithout TermThen (texts_of line.now tokens.now) }
{
    let (coef, after) = signed_of(line, tokens)?;
    let after = after_text(line, after, b"*")?;
    let (name, rest) = word_of(line, after)?;
    Some((Term { coef, name }, rest))
}

/// Terms up to a closing parenthesis, and the tokens after that.
pub fn terms_of<'a, 't>(
    alloc: Global,
    line: &'a [u8],
    tokens: &'t [Token],
) -> Result<Option<(List<Term<'a>>, &'t [Token])>, AllocError>
    requires { All (IsTokenIn line.now) tokens.now }
    ensures some { IfOk result (λ read. IfSome read (λ found. BeginsCapped TermsThen (map capped_term) (texts_of line.now tokens.now) (terms_of found.0) (texts_of line.now found.1.now))) }
    ensures tokens { IfOk result (λ read. IfSome read (λ found. All (IsTokenIn line.now) found.1.now)) }
    ensures none { IfOk result (λ read. IsNone read → BeginsWithout TermsThen (texts_of line.now tokens.now)) }
{
    let mut terms = List::new(alloc);
    let mut rest = tokens;
    'terms: loop {
        let Some((term, after)) = term_of(line, rest) else {
            return Ok(None);
        };
        terms.push(term)?;
        if let Some(more) = after_text(line, after, b",") {
            rest = more;
            continue;
        }
        let Some(end) = after_text(line, after, b")") else {
            return Ok(None);
        };
        return Ok(Some((terms, end)));
    }
}

/// Names up to a closing parenthesis, and the tokens after that.
pub fn names_of<'a, 't>(
    alloc: Global,
    line: &'a [u8],
    tokens: &'t [Token],
) -> Result<Option<(List<&'a [u8]>, &'t [Token])>, AllocError>
    requires { All (IsTokenIn line.now) tokens.now }
    ensures some { IfOk result (λ read. IfSome read (λ found. NamesThen (texts_of line.now tokens.now) (map (λ name. name.now) found.0) (texts_of line.now found.1.now))) }
    ensures tokens { IfOk result (λ read. IfSome read (λ found. All (IsTokenIn line.now) found.1.now)) }
    ensures none { IfOk result (λ read. IsNone read → BeginsWithout NamesThen (texts_of line.now tokens.now)) }
{
    let mut names = List::new(alloc);
    let mut rest = tokens;
    'names: loop {
        let Some((name, after)) = word_of(line, rest) else {
            return Ok(None);
        };
        names.push(name)?;
        if let Some(more) = after_text(line, after, b",") {
            rest = more;
            continue;
        }
        let Some(end) = after_text(line, after, b")") else {
            return Ok(None);
        };
        return Ok(Some((names, end)));
    }
}

/// The two bounds of a sum, where the tokens are them and no more.
pub fn bounds_of(line: &[u8], tokens: &[Token]) -> Option<(i64, i64)>
    requires { All (IsTokenIn line.now) tokens.now }
    ensures some { IfSome result (λ found. AreBounds (texts_of line.now tokens.now) found.0 found.1) }
    ensures none { IsNone result → (least most : ℤ) → BoundsThen (texts_of line.now tokens.now) least most [] → ⊥ }
{
    let (least, after) = signed_of(line, tokens)?;
    let after = after_text(line, after, b"..")?;
    let (most, rest) = signed_of(line, after)?;
    if !rest.is_empty() {
        return None;
    }
    Some((least, most))
}
