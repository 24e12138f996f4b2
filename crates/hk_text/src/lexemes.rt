//! The longest token that bytes begin with.

ghost use Rattle.std.specs.Prelude.{◌≡◌, ◌∷◌, ◌≤◌, false, length, take, drop, IfSome, IsNone};
ghost use Rattle.std.specs.Char.{is_ascii_digit};
ghost use Rattle.std.specs.List.{prefix_len};
ghost use Rattle.hk_text.specs.Bytes.{is_word_start, is_word_byte};
ghost use Rattle.hk_text.specs.Lexemes.{IsLongest, BeginsNoToken};

use crate::bytes::{is_symbol_byte, is_symbol_pair, is_word_byte, is_word_start};

/// What a token is: a word, a number or a symbol.
#[derive(Clone, Copy, Debug, PartialEq, Eq)]
pub enum TokenKind {
    Word,
    Number,
    Symbol,
}

/// How many bytes at the front go on with a word.
fn word_length(bytes: &[u8]) -> usize
    ensures { result ≡ prefix_len is_word_byte bytes.now }
{
    bytes.iter().take_while(|byte| is_word_byte(**byte)).count()
}

/// How many bytes at the front are digits.
fn digit_count(bytes: &[u8]) -> usize
    ensures { result ≡ prefix_len is_ascii_digit bytes.now }
{
    bytes
        .iter()
        .take_while(|byte| byte.is_ascii_digit())
        .count()
}

/// The longest token that `first` and then `more` begin with: its kind, and how many bytes of
/// `more` it takes.
pub fn lexeme_from(first: u8, more: &[u8]) -> Option<(TokenKind, usize)>
    ensures some { IfSome result (λ found. IsLongest found.0 (first ∷ take found.1 more.now) (drop found.1 more.now)) }
    ensures inside { IfSome result (λ found. found.1 ≤ length more.now) }
    ensures none { IsNone result → BeginsNoToken (first ∷ more.now) }
{
    if is_word_start(first) {
        return Some((TokenKind::Word, word_length(more)));
    }
    if first.is_ascii_digit() {
        return Some((TokenKind::Number, digit_count(more)));
    }
    symbol_from(first, more)
}

/// The longest symbol that `first`, which begins no word and no number, and then `more` begin with.
fn symbol_from(first: u8, more: &[u8]) -> Option<(TokenKind, usize)>
    requires no_word { is_word_start first ≡ false }
    requires no_number { is_ascii_digit first ≡ false }
    ensures some { IfSome result (λ found. IsLongest found.0 (first ∷ take found.1 more.now) (drop found.1 more.now)) }
    ensures inside { IfSome result (λ found. found.1 ≤ length more.now) }
    ensures none { IsNone result → BeginsNoToken (first ∷ more.now) }
{
    if let [second, ..] = more {
        if is_symbol_pair(first, *second) {
            return Some((TokenKind::Symbol, 1));
        }
    }
    if is_symbol_byte(first) {
        Some((TokenKind::Symbol, 0))
    } else {
        None
    }
}
