//! Texts of many lines, made of pieces.

use hk_base::{Bytes, List};
use hk_text::push_number;
use std::alloc::{AllocError, Global};

/// The most bytes that are read.
pub const MOST_BYTES: usize = 1_048_576;

/// A first line, and so many lines of a number, from 0 on, between these texts.
pub fn numbered(
    alloc: Global,
    first: &[u8],
    before: &[u8],
    after: &[u8],
    count: u16,
) -> Result<Bytes, AllocError> {
    let mut text = List::new(alloc);
    text.push_all(first)?;
    push_lines(&mut text, before, after, count)?;
    Ok(text)
}

/// Appends so many numbers, from 0 on, each between these texts.
pub fn push_lines(
    text: &mut Bytes,
    before: &[u8],
    after: &[u8],
    count: u16,
) -> Result<(), AllocError> {
    for number in 0..count {
        push_line(text, before, after, number)?;
    }
    Ok(())
}

/// Appends the number between these texts.
fn push_line(text: &mut Bytes, before: &[u8], after: &[u8], number: u16) -> Result<(), AllocError> {
    text.push_all(before)?;
    push_number(text, i64::from(number))?;
    text.push_all(after)
}

/// Appends the piece `count` times.
pub fn repeat(text: &mut Bytes, piece: &[u8], count: usize) -> Result<(), AllocError> {
    for _ in 0..count {
        text.push_all(piece)?;
    }
    Ok(())
}
