//! Texts that are put together of pieces, and the specifications that texts write.

use hk_base::{Bytes, List};
use hk_parse::{print_spec, read_spec};
use hk_spec::Spec;
use std::alloc::{AllocError, Global};

/// The most bytes that are read.
pub const MOST_BYTES: usize = 1_048_576;

/// A specification of lists that rise: its property is the value before, and its test asks that
/// each value is greater than the one before it.
pub const RISE: &str = "spec rise ()\ndown m Min 0\ntest ((i < 1) or (m < v))\nstep m v\nend\n";

/// The text that these pieces make.
pub fn joined(alloc: Global, pieces: &[&str]) -> Result<Bytes, AllocError> {
    let mut text = List::new(alloc);
    push_pieces(&mut text, pieces)?;
    Ok(text)
}

/// Appends these pieces.
fn push_pieces(text: &mut Bytes, pieces: &[&str]) -> Result<(), AllocError> {
    for piece in pieces {
        text.push_all(piece.as_bytes())?;
    }
    Ok(())
}

/// The specification that a text writes.
pub fn written(alloc: Global, text: &[u8]) -> Option<Spec> {
    if text.len() > MOST_BYTES {
        return None;
    }
    read_spec(alloc, text).ok()
}

/// Whether a specification is printed so.
pub fn is_printed(alloc: Global, spec: &Spec, text: &[u8]) -> Option<bool> {
    let mut printed = List::new(alloc);
    print_spec(spec, &mut printed).ok()?;
    Some(printed.as_slice() == text)
}
