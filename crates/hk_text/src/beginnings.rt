//! What the tokens of a line begin with, and the tokens after that.

ghost use Rattle.std.specs.Prelude.{◌≡◌, ◌∷◌, ◌+◌, ◌↔◌, List as Seq, ℕ, length, All, IsTrue, IfSome, IsNone};
ghost use Rattle.hk_text.specs.Lexemes.{IsWord};
ghost use Rattle.hk_text.specs.Numbers.{IsNumber};
ghost use Rattle.hk_text.specs.Texts.{text_of, texts_of};
ghost use Rattle.hk_text.specs.Tokens.{IsTokenIn};

use crate::lexemes::TokenKind;
use crate::numbers::number_up_to;
use crate::texts::{has_text, text_of};
use crate::tokenizer::Token;

/// The tokens after a first token with this text. None where there is no token, or the first has
/// another text.
pub fn after_text<'t>(line: &[u8], tokens: &'t [Token], text: &[u8]) -> Option<&'t [Token]>
    requires { All (IsTokenIn line.now) tokens.now }
    ensures some { IfSome result (λ rest. texts_of line.now tokens.now ≡ text.now ∷ texts_of line.now rest.now) }
    ensures tokens { IfSome result (λ rest. All (IsTokenIn line.now) rest.now) }
    ensures shorter { IfSome result (λ rest. length tokens.now ≡ length rest.now + 1) }
    ensures none { IsNone result → (rest : Seq (Seq ℕ)) → texts_of line.now tokens.now ≡ text.now ∷ rest → ⊥ }
{
    let (token, rest) = tokens.split_first()?;
    if !has_text(line, *token, text) {
        return None;
    }
    Some(rest)
}

/// A word, and the tokens after it. None where there is no token, or the first is no word.
pub fn word_of<'a, 't>(line: &'a [u8], tokens: &'t [Token]) -> Option<(&'a [u8], &'t [Token])>
    requires { All (IsTokenIn line.now) tokens.now }
    ensures some { IfSome result (λ found. texts_of line.now tokens.now ≡ found.0.now ∷ texts_of line.now found.1.now) }
    ensures word { IfSome result (λ found. IsWord found.0.now) }
    ensures tokens { IfSome result (λ found. All (IsTokenIn line.now) found.1.now) }
    ensures shorter { IfSome result (λ found. length tokens.now ≡ length found.1.now + 1) }
    ensures none { IsNone result → (word : Seq ℕ) (rest : Seq (Seq ℕ)) → texts_of line.now tokens.now ≡ word ∷ rest → IsWord word → ⊥ }
{
    let (token, rest) = tokens.split_first()?;
    if !is_word(line, *token) {
        return None;
    }
    Some((text_of(line, *token), rest))
}

/// Whether the token is a word.
pub fn is_word(line: &[u8], token: Token) -> bool
    requires { IsTokenIn line.now token }
    ensures { IsTrue result ↔ IsWord (text_of line.now token) }
{
    token.kind == TokenKind::Word
}

/// The digits of a number without a needless zero, and the tokens after it. None where there is no
/// token, or the first writes no such number.
pub fn number_of<'a, 't>(line: &'a [u8], tokens: &'t [Token]) -> Option<(&'a [u8], &'t [Token])>
    requires { All (IsTokenIn line.now) tokens.now }
    ensures some { IfSome result (λ found. texts_of line.now tokens.now ≡ found.0.now ∷ texts_of line.now found.1.now) }
    ensures number { IfSome result (λ found. (n : ℕ) × IsNumber found.0.now n) }
    ensures tokens { IfSome result (λ found. All (IsTokenIn line.now) found.1.now) }
    ensures shorter { IfSome result (λ found. length tokens.now ≡ length found.1.now + 1) }
    ensures none { IsNone result → (digits : Seq ℕ) (n : ℕ) (rest : Seq (Seq ℕ)) → texts_of line.now tokens.now ≡ digits ∷ rest → IsNumber digits n → ⊥ }
{
    let (token, rest) = tokens.split_first()?;
    let digits = text_of(line, *token);
    number_up_to(digits, 0)?;
    Some((digits, rest))
}
