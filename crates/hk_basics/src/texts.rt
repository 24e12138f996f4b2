//! Texts: lines, numbers and sets, with what they are read as and how they are written.

ghost use Rattle.std.specs.Prelude.{◌≤◌, length};
ghost use Rattle.std.specs.List.{All};
ghost use Rattle.hk_text.specs.Texts.{IsWithin};

use hk_base::{Bytes, List};
use hk_text::{
    TextFault, Token, TokenKind, has_text, number_up_to, push_number, push_set, push_unsigned,
    push_values, split_line, text_of, tokens,
};
use std::alloc::{AllocError, Global};
use std::test::Fail;

/// The most bytes that `tokens` takes.
const MOST: usize = 1_048_576;

/// Whether a token of the line has this text, by both calls that tell it, and this kind.
fn is_token(line: &[u8], token: Token, text: &[u8], kind: TokenKind) -> bool
    requires { IsWithin line.now token }
{
    token.kind == kind && text_of(line, token) == text && has_text(line, token, text)
}

/// Whether the tokens of the line have these texts and kinds, one after the other.
fn are_tokens(line: &[u8], found: &[Token], rows: &[(&str, TokenKind)]) -> bool
    requires { All (IsWithin line.now) found.now }
{
    if found.len() != rows.len() {
        return false;
    }
    for at in 0..found.len() {
        let (text, kind) = rows[at];
        if !is_token(line, found[at], text.as_bytes(), kind) {
            return false;
        }
    }
    true
}

/// Whether a line has tokens of these texts and kinds.
fn has_tokens(alloc: Global, line: &[u8], rows: &[(&str, TokenKind)]) -> bool {
    if line.len() > MOST {
        return false;
    }
    match tokens(alloc, line) {
        Ok(found) => are_tokens(line, found.as_slice(), rows),
        Err(_) => false,
    }
}

/// How many tokens a line has, where it has no bad byte.
fn token_count(alloc: Global, line: &[u8]) -> Option<usize> {
    if line.len() > MOST {
        return None;
    }
    match tokens(alloc, line) {
        Ok(found) => Some(found.as_slice().len()),
        Err(_) => None,
    }
}

/// What is wrong with a line, where it has a bad byte.
fn fault_of(alloc: Global, line: &[u8]) -> Option<TextFault> {
    if line.len() > MOST {
        return None;
    }
    tokens(alloc, line).err()
}

/// Whether a line has a bad byte and this is said of it.
fn is_refused(alloc: Global, line: &[u8], text: &str) -> Result<bool, Fail> {
    match fault_of(alloc, line) {
        Some(fault) => Ok(fault.to_string(alloc)?.as_str() == text),
        None => Ok(false),
    }
}

/// Appends as many bytes as a line may have, each `+` but the last.
fn push_longest(line: &mut Bytes, last: u8) -> Result<(), AllocError> {
    for _ in 1..MOST {
        line.push(b'+')?;
    }
    line.push(last)
}

/// How many tokens the longest line of `+` has.
fn longest_count(alloc: Global) -> Result<Option<usize>, AllocError> {
    let mut line = List::new(alloc);
    push_longest(&mut line, b'+')?;
    Ok(token_count(alloc, line.as_slice()))
}

/// How many tokens an empty line has, one of blanks and a comment, and the longest one of `+`.
fn token_counts(alloc: Global) -> Result<[Option<usize>; 3], AllocError> {
    let longest = longest_count(alloc)?;
    let blank = token_count(alloc, b" \t\r# $\xff");
    Ok([token_count(alloc, b""), blank, longest])
}

/// Whether the longest line of `+` up to this last byte has a bad byte and this is said of it.
fn is_longest_refused(alloc: Global, last: u8, text: &str) -> Result<bool, Fail> {
    let mut line = List::new(alloc);
    push_longest(&mut line, last)?;
    is_refused(alloc, line.as_slice(), text)
}

/// Whether the longest lines of `+` up to a bad byte are refused, with what is said of each.
fn are_longest_refused(alloc: Global) -> Result<[bool; 2], Fail> {
    let symbol = "column 1048576: a byte that begins no token";
    let other = "column 1048576: a byte that is not ASCII";
    let is_first_refused = is_longest_refused(alloc, b'$', symbol)?;
    Ok([is_first_refused, is_longest_refused(alloc, 0x80, other)?])
}

/// How many tokens the shortest and longest lines have, and whether the longest with a bad byte are refused.
fn sizes_told(alloc: Global) -> Result<([Option<usize>; 3], [bool; 2]), Fail> {
    let counts = token_counts(alloc)?;
    Ok((counts, are_longest_refused(alloc)?))
}

#[test]
fn lines_are_read(rt: HostRuntime) {
    let (line, rest) = split_line(b"var x in 0..1 # days\nvar $");
    let rows = [
        ("var", TokenKind::Word),
        ("x", TokenKind::Word),
        ("in", TokenKind::Word),
        ("0", TokenKind::Number),
        ("..", TokenKind::Symbol),
        ("1", TokenKind::Number),
    ];
    assert!(rt; has_tokens(rt.alloc(), line, &rows));
    assert!(rt; matches!(fault_of(rt.alloc(), rest), Some(TextFault::BadByte(5))));
}

#[test]
fn bad_bytes_are_told(rt: HostRuntime) -> Result<(), Fail> {
    let rows: [(&[u8], &str); 7] = [
        (b"\0", "column 1: a byte that begins no token"),
        (b"var $", "column 5: a byte that begins no token"),
        (b"a=b", "column 2: a byte that begins no token"),
        (b"a \x7f", "column 3: a byte that begins no token"),
        (b"\x80", "column 1: a byte that is not ASCII"),
        (b"var \xc3\xa9", "column 5: a byte that is not ASCII"),
        (b"1\xff", "column 2: a byte that is not ASCII"),
    ];
    for (line, text) in rows {
        assert!(rt; is_refused(rt.alloc(), line, text)?, "{text}");
    }
    Ok(())
}

#[test]
fn shortest_and_longest_lines_are_read(rt: HostRuntime) -> Result<(), Fail> {
    let counts = [Some(0), Some(0), Some(MOST)];
    assert_eq!(rt; sizes_told(rt.alloc())?, (counts, [true; 2]));
    Ok(())
}

#[test]
fn numbers_are_read(rt: HostRuntime) {
    let rows = [
        ("0", Some(0)),
        ("01", None),
        ("127", Some(127)),
        ("128", Some(127)),
        ("", None),
        ("x", None),
        ("1234567890123456789012345678901234567890", Some(127)),
    ];
    for (text, expected) in &rows {
        assert_eq!(rt; number_up_to(text.as_bytes(), 127), *expected);
    }
}

/// Appends numbers, each with a space after it.
fn push_signed_numbers(out: &mut Bytes) -> Result<(), AllocError> {
    for number in [0, -1, i64::MIN, i64::MAX] {
        push_number(out, number)?;
        out.push(b' ')?;
    }
    Ok(())
}

/// Appends numbers without a sign, each with a space after it.
fn push_unsigned_numbers(out: &mut Bytes) -> Result<(), AllocError> {
    for number in [0, 10, u64::MAX] {
        push_unsigned(out, number)?;
        out.push(b' ')?;
    }
    Ok(())
}

/// Appends sets, each in braces and then as a list of its values.
fn push_sets(out: &mut Bytes) -> Result<(), AllocError> {
    for bits in [0, 9, 1 << 127 | 6] {
        push_set(out, bits)?;
        push_values(out, bits, b" v", b";")?;
        out.push(b' ')?;
    }
    Ok(())
}

/// Whether the numbers are written so.
fn are_numbers_written(alloc: Global, expected: &[u8]) -> Result<bool, AllocError> {
    let mut out = List::new(alloc);
    push_signed_numbers(&mut out)?;
    push_unsigned_numbers(&mut out)?;
    Ok(out.as_slice() == expected)
}

/// Whether the sets are written so.
fn are_sets_written(alloc: Global, expected: &[u8]) -> Result<bool, AllocError> {
    let mut out = List::new(alloc);
    push_sets(&mut out)?;
    Ok(out.as_slice() == expected)
}

/// How many bytes the set of all values is written in, and whether they begin and end so.
fn all_values(alloc: Global, first: &[u8], last: &[u8]) -> Result<(usize, bool, bool), AllocError> {
    let mut out = List::new(alloc);
    push_set(&mut out, u128::MAX)?;
    let text = out.as_slice();
    Ok((text.len(), text.starts_with(first), text.ends_with(last)))
}

/// Whether the numbers and the sets are written rightly, and what is told of the set of all values.
fn written(alloc: Global) -> Result<(bool, bool, (usize, bool, bool)), AllocError> {
    let numbers = b"0 -1 -9223372036854775808 9223372036854775807 0 10 18446744073709551615 ";
    let are_numbers = are_numbers_written(alloc, numbers)?;
    let are_sets = are_sets_written(alloc, b"{} {0,3} v0; v3 {1,2,127} v1; v2; v127 ")?;
    let all = all_values(alloc, b"{0,1,2,", b",124,125,126,127}")?;
    Ok((are_numbers, are_sets, all))
}

#[test]
fn numbers_and_sets_are_written(rt: HostRuntime) -> Result<(), Fail> {
    assert_eq!(rt; written(rt.alloc())?, (true, true, (403, true, true)));
    Ok(())
}
