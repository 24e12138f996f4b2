//! The bytes of a token, and whether they are a given text.

ghost use Rattle.std.specs.Prelude.{◌≡◌, ◌↔◌, IsTrue};
ghost use Rattle.hk_text.specs.Texts.{IsWithin, text_of};

use crate::tokenizer::Token;

/// The bytes of a token of the line.
pub fn text_of<'a>(line: &'a [u8], token: Token) -> &'a [u8]
    requires { IsWithin line.now token }
    ensures { result.now ≡ text_of line.now token }
{
    &line[token.start..token.end]
}

/// Whether a token of the line has this text.
pub fn has_text(line: &[u8], token: Token, text: &[u8]) -> bool
    requires { IsWithin line.now token }
    ensures { IsTrue result ↔ (text_of line.now token ≡ text.now) }
{
    text_of(line, token) == text
}
