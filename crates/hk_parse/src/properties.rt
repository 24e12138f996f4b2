//! The lines of properties.

ghost use Rattle.std.specs.Prelude.{◌≡◌, ◌∷◌, ◌++◌, All, ℕ, Bool, List as Seq, IfSome, IsNone, codes};
ghost use Rattle.std.specs.Str.{bytes_eq};
ghost use Rattle.hk_kinds.specs.declared.kinds.Kind.{Kind};
ghost use Rattle.hk_text.specs.Texts.{texts_of};
ghost use Rattle.hk_parse.specs.inside.Headers.{ArePropertyTexts, IsSignedOf, ReadsInit, ReadsProperty, SignedThen};
ghost use Rattle.hk_parse.specs.LineTexts.{InitText, IsInitText, init_texts};
ghost use Rattle.hk_print.specs.Printed.{kind_word};
ghost use Rattle.hk_terms.specs.NumTexts.{IsSigned, number_texts};
ghost use Rattle.hk_text.specs.Tokens.{IsTokenIn};

use hk_kinds::{Kind, Prop};
use hk_terms::{GREATEST, value_within, values_of};
use hk_text::{Token, after_text, number_of, word_of};

/// A property as it is written, with its initial value: None where a number of that passes its
/// limit.
#[derive(Clone, Copy)]
pub struct PropertyWords<'a> {
    pub name: &'a [u8],
    pub kind: Kind,
    pub init: Option<Prop>,
}

/// The property that the tokens say after the word of its side.
pub fn property_of<'a>(line: &'a [u8], tokens: &[Token]) -> Option<PropertyWords<'a>>
    requires { All (IsTokenIn line.now) tokens.now }
    ensures some { IfSome result (λ p. ReadsProperty (texts_of line.now tokens.now) p.name.now p.kind p.init) }
    ensures none { IsNone result → (name : Seq ℕ) (kind : Kind) (init : InitText) → ArePropertyTexts (texts_of line.now tokens.now) name kind init → ⊥ }
{
    let (name, after) = word_of(line, tokens)?;
    let (word, rest) = word_of(line, after)?;
    let kind = kind_of(word)?;
    let init = init_of(line, rest, kind)?;
    Some(PropertyWords { name, kind, init })
}

/// The kind whose word this is.
fn kind_of(word: &[u8]) -> Option<Kind>
    ensures some { IfSome result (λ kind. kind_word kind ≡ word.now) }
    ensures none { IsNone result → (kind : Kind) → kind_word kind ≡ word.now → ⊥ }
{
    if word == b"Min".as_slice() {
        return Some(Kind::Min);
    }
    if word == b"Max".as_slice() {
        return Some(Kind::Max);
    }
    if word == b"Interval".as_slice() {
        return Some(Kind::Interval);
    }
    if word == b"SomeBits".as_slice() {
        return Some(Kind::SomeBits);
    }
    if word == b"AllBits".as_slice() {
        return Some(Kind::AllBits);
    }
    None
}

/// The initial value of a property of this kind that the tokens say, where they say one.
fn init_of(line: &[u8], tokens: &[Token], kind: Kind) -> Option<Option<Prop>>
    requires { All (IsTokenIn line.now) tokens.now }
    ensures some { IfSome result (ReadsInit kind (texts_of line.now tokens.now)) }
    ensures none { IsNone result → (init : InitText) → IsInitText kind init → texts_of line.now tokens.now ≡ init_texts init → ⊥ }
{
    match kind {
        Kind::Min => number_init(line, tokens),
        Kind::Max => number_init(line, tokens),
        Kind::Interval => interval_init(line, tokens),
        Kind::SomeBits => set_init(line, tokens),
        Kind::AllBits => set_init(line, tokens),
    }
}

/// The number that the tokens say.
fn number_init(line: &[u8], tokens: &[Token]) -> Option<Option<Prop>>
    requires { All (IsTokenIn line.now) tokens.now }
    ensures some { IfSome result (ReadsInit Kind.Min (texts_of line.now tokens.now)) }
    ensures none { IsNone result → (init : InitText) → IsInitText Kind.Min init → texts_of line.now tokens.now ≡ init_texts init → ⊥ }
{
    let (number, rest) = signed_of(line, tokens)?;
    if !rest.is_empty() {
        return None;
    }
    match number {
        None => Some(None),
        Some(n) => Some(Some(Prop::Num(n))),
    }
}

/// The two numbers that the tokens say, with `..` between them.
fn interval_init(line: &[u8], tokens: &[Token]) -> Option<Option<Prop>>
    requires { All (IsTokenIn line.now) tokens.now }
    ensures some { IfSome result (ReadsInit Kind.Interval (texts_of line.now tokens.now)) }
    ensures none { IsNone result → (init : InitText) → IsInitText Kind.Interval init → texts_of line.now tokens.now ≡ init_texts init → ⊥ }
{
    let (low, after) = signed_of(line, tokens)?;
    let after = after_text(line, after, b"..")?;
    let (high, rest) = signed_of(line, after)?;
    if !rest.is_empty() {
        return None;
    }
    match (low, high) {
        (Some(low), Some(high)) => Some(Some(Prop::Pair(low, high))),
        _ => Some(None),
    }
}

/// The set that the tokens say, numbers in braces.
fn set_init(line: &[u8], tokens: &[Token]) -> Option<Option<Prop>>
    requires { All (IsTokenIn line.now) tokens.now }
    ensures some { IfSome result (ReadsInit Kind.SomeBits (texts_of line.now tokens.now)) }
    ensures none { IsNone result → (init : InitText) → IsInitText Kind.SomeBits init → texts_of line.now tokens.now ≡ init_texts init → ⊥ }
{
    let after = after_text(line, tokens, b"{")?;
    let (made, rest) = values_of(line, after)?;
    if !rest.is_empty() {
        return None;
    }
    match made {
        Ok(set) => Some(Some(Prop::Bits(set))),
        Err(_) => Some(None),
    }
}

/// A number, and the tokens after it; None for one that passes its limit.
fn signed_of<'t>(line: &[u8], tokens: &'t [Token]) -> Option<(Option<i64>, &'t [Token])>
    requires { All (IsTokenIn line.now) tokens.now }
    ensures some { IfSome result (λ found. SignedThen (texts_of line.now tokens.now) found.0 (texts_of line.now found.1.now)) }
    ensures tokens { IfSome result (λ found. All (IsTokenIn line.now) found.1.now) }
    ensures none { IsNone result → (negative : Bool) (digits : Seq ℕ) (rest : Seq (Seq ℕ)) → texts_of line.now tokens.now ≡ number_texts negative digits ++ rest → IsSigned negative digits → ⊥ }
{
    let Some(after) = after_text(line, tokens, b"-") else {
        let (digits, rest) = number_of(line, tokens)?;
        return Some((signed_value(false, digits), rest));
    };
    let (digits, rest) = number_of(line, after)?;
    if is_zero(digits) {
        return None;
    }
    Some((signed_value(true, digits), rest))
}

/// Whether these are the digits of 0.
fn is_zero(digits: &[u8]) -> bool
    ensures { result ≡ bytes_eq digits.now (codes "0") }
{
    matches!(digits, b"0")
}

/// The number with these digits, and with `-` in front or without, where it is within its limit.
fn signed_value(negative: bool, digits: &[u8]) -> Option<i64>
    requires { IsSigned negative digits.now }
    ensures { IsSignedOf negative digits.now result }
{
    match value_within(digits, GREATEST) {
        None => None,
        Some(value) if negative => Some(-(value as i64)),
        Some(value) => Some(value as i64),
    }
}
