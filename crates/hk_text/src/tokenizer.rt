//! The tokens of a line, and why a line has none.

ghost use Rattle.std.specs.Prelude.{◌≡◌, ◌+◌, ◌≤◌, ◌∷◌, false, length, IfOk, IfErr};
ghost use Rattle.std.specs.List.{prefix_len, All};
ghost use Rattle.hk_text.specs.Bytes.{is_blank};
ghost use Rattle.hk_text.specs.Lexemes.{IsLexeme};
ghost use Rattle.hk_text.specs.inside.Steps.{ComesNext, IsFaultAt};
ghost use Rattle.hk_text.specs.Texts.{IsWithin, text_of};
ghost use Rattle.hk_text.specs.Tokens.{AreTokensOf, IsFaultOf};

use crate::bytes::{COMMENT, is_blank};
use crate::lexemes::{TokenKind, lexeme_from};
use hk_base::List;
use std::alloc::Global;
use thiserror::Error;

/// A word, a number or a symbol of a line: its bytes from `start` on, up to `end` and without it.
#[derive(Clone, Copy, Debug, PartialEq, Eq)]
pub struct Token {
    pub kind: TokenKind,
    pub start: usize,
    pub end: usize,
}

/// Why a line has no tokens. A column counts bytes, from 1.
#[derive(Debug, Drop, Error)]
pub enum TextFault {
    #[error("column {0}: a byte that is not ASCII")]
    NotAscii(u32),
    #[error("column {0}: a byte that begins no token")]
    BadByte(u32),
    #[error("out of memory")]
    Memory,
}

/// What comes first in the rest of a line, after blanks.
enum Next<'a> {
    Found { token: Token, rest: &'a [u8] },
    Quiet,
    Stuck { column: u32, byte: u8 },
}

/// The tokens of a line without its line end, the longest at each place. A line of blanks and a
/// comment has none. The fault is that of the first byte that no token, blank or comment takes, or
/// want of memory.
pub fn tokens(alloc: Global, line: &[u8]) -> Result<List<Token>, TextFault>
    requires { length line.now ≤ 1048576 }
    ensures ok { IfOk result (AreTokensOf line.now) }
    ensures within { IfOk result (All (IsWithin line.now)) }
    ensures lexemes { IfOk result (All (λ token. IsLexeme token.kind (text_of line.now token))) }
    ensures err { IfErr result (IsFaultOf line.now) }
{
    let mut found = List::new(alloc);
    let mut place = 0;
    let mut rest = line;
    'tokens: loop {
        match next_token(place, rest) {
            Next::Found { token, rest: after } => {
                found.push(token).map_err(|_| TextFault::Memory)?;
                place = token.end;
                rest = after;
            }
            Next::Quiet => return Ok(found),
            Next::Stuck { column, byte } => return Err(fault_at(column, byte)),
        }
    }
}

/// How many bytes at the front only separate tokens.
fn blank_count(bytes: &[u8]) -> usize
    ensures { result ≡ prefix_len is_blank bytes.now }
{
    bytes.iter().take_while(|byte| is_blank(**byte)).count()
}

/// What comes first in bytes that begin at `place` in their line.
fn next_token(place: usize, bytes: &[u8]) -> Next<'_>
    requires { place + length bytes.now ≤ 1048576 }
    ensures { ComesNext place bytes.now result }
{
    let gap = blank_count(bytes);
    let (_, rest) = bytes.split_at(gap);
    match rest.split_first() {
        None => Next::Quiet,
        Some((first, more)) => token_from(place + gap, *first, more),
    }
}

/// What comes first in bytes that begin with one that is no blank.
fn token_from(place: usize, first: u8, more: &[u8]) -> Next<'_>
    requires inside { place + length more.now + 1 ≤ 1048576 }
    requires no_blank { is_blank first ≡ false }
    ensures { ComesNext place (first ∷ more.now) result }
{
    if first == COMMENT {
        return Next::Quiet;
    }
    match lexeme_from(first, more) {
        None => Next::Stuck {
            column: place as u32 + 1,
            byte: first,
        },
        Some((kind, taken)) => {
            let (_, rest) = more.split_at(taken);
            let end = place + 1 + taken;
            Next::Found {
                token: Token {
                    kind,
                    start: place,
                    end,
                },
                rest,
            }
        }
    }
}

/// The fault of a bad byte in a column.
fn fault_at(column: u32, byte: u8) -> TextFault
    ensures { IsFaultAt column byte result }
{
    if byte.is_ascii() {
        TextFault::BadByte(column)
    } else {
        TextFault::NotAscii(column)
    }
}
