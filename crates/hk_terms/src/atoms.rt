//! Operands that no parenthesis stands around.

ghost use Rattle.std.specs.Prelude.{◌<◌, ◌≤◌, ◌∷◌, List as Seq, ℕ, length, All, IfSome, IsNone, codes};
ghost use Rattle.hk_text.specs.Lexemes.{IsWord};
ghost use Rattle.hk_text.specs.Texts.{texts_of};
ghost use Rattle.hk_terms.specs.Atoms.{ReadsAtom};
ghost use Rattle.hk_terms.specs.Operands.{AtomThen, Operand};
ghost use Rattle.hk_text.specs.Tokens.{IsTokenIn};

use crate::braces::values_of;
use crate::flaws::Flaw;
use hk_text::{Token, after_text, number_of, word_of};

/// An operand that no parenthesis stands around.
#[derive(Clone, Copy)]
pub enum Atom<'a> {
    /// A word, of which it isn't known yet what it stands for.
    Word(&'a [u8]),
    /// The digits of a number.
    Number(&'a [u8]),
    /// `WORD[i]`
    Item(&'a [u8]),
    /// `WORD.lo`
    Low(&'a [u8]),
    /// `WORD.hi`
    High(&'a [u8]),
    /// `{v}`
    One,
    /// Numbers in braces: the set of them, or a flaw where one passes its limit.
    Values(Result<u128, Flaw>),
}

/// The operand that the tokens begin with, and the tokens after it.
pub fn atom_of<'a, 't>(line: &'a [u8], tokens: &'t [Token]) -> Option<(Atom<'a>, &'t [Token])>
    requires { All (IsTokenIn line.now) tokens.now }
    ensures some { IfSome result (λ found. ReadsAtom (texts_of line.now tokens.now) found.0 (texts_of line.now found.1.now)) }
    ensures tokens { IfSome result (λ found. All (IsTokenIn line.now) found.1.now) }
    ensures shorter { IfSome result (λ found. length found.1.now < length tokens.now) }
    ensures none { IsNone result → (x : Operand) (rest : Seq (Seq ℕ)) → AtomThen (texts_of line.now tokens.now) x rest → ⊥ }
{
    if let Some(after) = after_text(line, tokens, b"{") {
        return braces_of(line, after);
    }
    if let Some((digits, rest)) = number_of(line, tokens) {
        return Some((Atom::Number(digits), rest));
    }
    let (word, after) = word_of(line, tokens)?;
    named_of(line, word, after)
}

/// What an opening brace and these tokens begin with, and the tokens after it.
fn braces_of<'a, 't>(line: &'a [u8], tokens: &'t [Token]) -> Option<(Atom<'a>, &'t [Token])>
    requires { All (IsTokenIn line.now) tokens.now }
    ensures some { IfSome result (λ found. ReadsAtom (codes "{" ∷ texts_of line.now tokens.now) found.0 (texts_of line.now found.1.now)) }
    ensures tokens { IfSome result (λ found. All (IsTokenIn line.now) found.1.now) }
    ensures shorter { IfSome result (λ found. length found.1.now < length tokens.now) }
    ensures none { IsNone result → (x : Operand) (rest : Seq (Seq ℕ)) → AtomThen (codes "{" ∷ texts_of line.now tokens.now) x rest → ⊥ }
{
    if let Some(after) = after_text(line, tokens, b"v") {
        let rest = after_text(line, after, b"}")?;
        return Some((Atom::One, rest));
    }
    let (made, rest) = values_of(line, tokens)?;
    Some((Atom::Values(made), rest))
}

/// What a word and these tokens begin with, and the tokens after it.
fn named_of<'a, 't>(
    line: &[u8],
    word: &'a [u8],
    tokens: &'t [Token],
) -> Option<(Atom<'a>, &'t [Token])>
    requires tokens { All (IsTokenIn line.now) tokens.now }
    requires word { IsWord word.now }
    ensures some { IfSome result (λ found. ReadsAtom (word.now ∷ texts_of line.now tokens.now) found.0 (texts_of line.now found.1.now)) }
    ensures tokens { IfSome result (λ found. All (IsTokenIn line.now) found.1.now) }
    ensures shorter { IfSome result (λ found. length found.1.now ≤ length tokens.now) }
    ensures none { IsNone result → (x : Operand) (rest : Seq (Seq ℕ)) → AtomThen (word.now ∷ texts_of line.now tokens.now) x rest → ⊥ }
{
    if let Some(after) = after_text(line, tokens, b"[") {
        let after = after_text(line, after, b"i")?;
        let rest = after_text(line, after, b"]")?;
        return Some((Atom::Item(word), rest));
    }
    if let Some(after) = after_text(line, tokens, b".") {
        return end_of(line, word, after);
    }
    Some((Atom::Word(word), tokens))
}

/// What a word, a point and these tokens begin with, and the tokens after it.
fn end_of<'a, 't>(
    line: &[u8],
    word: &'a [u8],
    tokens: &'t [Token],
) -> Option<(Atom<'a>, &'t [Token])>
    requires tokens { All (IsTokenIn line.now) tokens.now }
    requires word { IsWord word.now }
    ensures some { IfSome result (λ found. ReadsAtom (word.now ∷ codes "." ∷ texts_of line.now tokens.now) found.0 (texts_of line.now found.1.now)) }
    ensures tokens { IfSome result (λ found. All (IsTokenIn line.now) found.1.now) }
    ensures shorter { IfSome result (λ found. length found.1.now < length tokens.now) }
    ensures none { IsNone result → (x : Operand) (rest : Seq (Seq ℕ)) → AtomThen (word.now ∷ codes "." ∷ texts_of line.now tokens.now) x rest → ⊥ }
{
    if let Some(rest) = after_text(line, tokens, b"lo") {
        return Some((Atom::Low(word), rest));
    }
    let rest = after_text(line, tokens, b"hi")?;
    Some((Atom::High(word), rest))
}
