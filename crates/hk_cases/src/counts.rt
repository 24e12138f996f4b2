//! Lines of `among`, `sequence` and `gcc`: which are read, and which are refused and why.

use crate::models::{judged, refused};
use crate::texts::{numbered, push_lines};
use hk_base::{Bytes, List};
use hk_model::RefusalKind;
use std::alloc::{AllocError, Global};

/// What stands above each of the lines.
const ABOVE: &str = "hkm 1\nvar x in 0..1\nvar y in 0..1\n";

const GOOD_LINES: &[&str] = &[
    "among (x, y) {} 0..0",
    "among (x) {127, 0..3} 5..2",
    "among (x) 0..127 0..1000000000000",
    "sequence 1 (x, y) {1} 0..1",
    "sequence 32 (x, y) {1} 0..1",
    "sequence 2 (x, y) {127} 1000000000000..1000000000000",
    "gcc (x, y) 1:0..2, 0:0..0",
    "gcc (x) 127:3..0",
    "gcc (x) 0:1000000000000..1000000000000",
];

const BAD_LINES: &[(&str, RefusalKind)] = &[
    ("sequence 0 (x, y) {1} 0..1", RefusalKind::Limit),
    ("sequence 33 (x, y) {1} 0..1", RefusalKind::Limit),
    ("among (x) {0} 0..1000000000001", RefusalKind::Limit),
    ("sequence 2 (x) {0} 1000000000001..1", RefusalKind::Limit),
    ("sequence 2 (x) {0} 0..1000000000001", RefusalKind::Limit),
    ("gcc (x) 1:0..1000000000001", RefusalKind::Limit),
    ("gcc (x) 1:1000000000001..0", RefusalKind::Limit),
    ("among (x) {0} 1000000000001..1", RefusalKind::Limit),
    ("sequence 2 (x) {128} 0..1", RefusalKind::Limit),
    ("among (x) {128} 0..1", RefusalKind::Limit),
    ("gcc (x) 128:0..1", RefusalKind::Limit),
    ("among (x) {3..1} 0..1", RefusalKind::Limit),
    ("among (x) 3..1 0..1", RefusalKind::Limit),
    ("gcc (x) 200:0..1, 201:0..1", RefusalKind::Limit),
    ("gcc (x) 1:0..1, 1:0..2", RefusalKind::Name),
    ("gcc (x) 200:0..1, 200:0..1", RefusalKind::Name),
    ("among (z) {0} 0..1", RefusalKind::Name),
    ("sequence 2 (x, z) {0} 0..1", RefusalKind::Name),
    ("gcc (x, z) 1:0..1", RefusalKind::Name),
    ("among (y, x) {0} 0..1", RefusalKind::Scope),
    ("sequence 2 (x, x) {0} 0..1", RefusalKind::Scope),
    ("gcc (y, x) 0:0..1", RefusalKind::Scope),
    ("among (x) 0..1", RefusalKind::Syntax),
    ("among (x) {0} -1..2", RefusalKind::Syntax),
    ("among (x) {0} 1", RefusalKind::Syntax),
    ("among (x, y,) {0} 0..1", RefusalKind::Syntax),
    ("among (x) {0,} 0..1", RefusalKind::Syntax),
    ("among", RefusalKind::Syntax),
    ("sequence (x) {0} 0..1", RefusalKind::Syntax),
    ("sequence 02 (x) {0} 0..1", RefusalKind::Syntax),
    ("sequence 2 (x, y,) {0} 0..1", RefusalKind::Syntax),
    ("sequence 2 (x) {0,} 0..1", RefusalKind::Syntax),
    ("gcc (x)", RefusalKind::Syntax),
    ("gcc (x) 1:0..1,", RefusalKind::Syntax),
    ("gcc (x) 1 0..1", RefusalKind::Syntax),
    ("gcc () 1:0..1", RefusalKind::Syntax),
    ("group (x)", RefusalKind::Syntax),
];

/// Lines that are good, but for the number of those before them.
const PAST_LINES: &[&str] = &[
    "sequence 2 (x0, x1) {0} 0..1\n",
    "gcc (x0) 0:0..1\n",
    "among (x0) {0} 0..1\n",
];

/// The line below those above it.
fn with_line(alloc: Global, line: &str) -> Result<Bytes, AllocError> {
    let mut text = List::new(alloc);
    text.push_all(ABOVE.as_bytes())?;
    text.push_all(line.as_bytes())?;
    Ok(text)
}

/// Whether, and why, the line is refused.
fn refused_line(alloc: Global, line: &str) -> Option<Option<(u32, RefusalKind)>> {
    let text = with_line(alloc, line).ok()?;
    Some(refused(alloc, text.as_slice()))
}

/// Appends the line that all of 256 variables are 0.
fn push_all_zero(text: &mut Bytes) -> Result<(), AllocError> {
    text.push_all(b"among (")?;
    push_lines(text, b"x", b", ", 255)?;
    text.push_all(b"x255) {0} 256..256\n")
}

/// Appends it so often.
fn push_zeros(text: &mut Bytes, count: usize) -> Result<(), AllocError> {
    for _ in 0..count {
        push_all_zero(text)?;
    }
    Ok(())
}

/// A model of 256 variables with that line so often.
fn zeros(alloc: Global, count: usize) -> Result<Bytes, AllocError> {
    let mut text = numbered(alloc, b"hkm 1\n", b"var x", b" in 0..1\n", 256)?;
    push_zeros(&mut text, count)?;
    Ok(text)
}

/// Why it is refused.
fn refused_zeros(alloc: Global, count: usize) -> Option<(u32, RefusalKind)> {
    let text = zeros(alloc, count).ok()?;
    refused(alloc, text.as_slice())
}

/// Why the line is refused as one constraint more than there may be.
fn refused_past(alloc: Global, line: &[u8]) -> Option<(u32, RefusalKind)> {
    let mut text = zeros(alloc, 64).ok()?;
    text.push_all(line).ok()?;
    refused(alloc, text.as_slice())
}

/// What values cost by it.
fn judged_zeros(alloc: Global, count: usize, values: &[u8]) -> Option<Option<i64>> {
    let text = zeros(alloc, count).ok()?;
    judged(alloc, text.as_slice(), values)
}

#[test]
fn counts_within_the_limits_are_read(rt: HostRuntime) {
    for line in GOOD_LINES {
        assert_eq!(rt; refused_line(rt.alloc(), line), Some(None), "{line}");
    }
}

#[test]
fn other_counts_are_refused(rt: HostRuntime) {
    for (line, kind) in BAD_LINES {
        let found = refused_line(rt.alloc(), line);
        assert_eq!(rt; found, Some(Some((4, *kind))), "{line}");
    }
}

#[test]
fn many_counts_are_judged(rt: HostRuntime) {
    let mut values = [0u8; 256];
    assert_eq!(rt; judged_zeros(rt.alloc(), 64, &values), Some(Some(0)));
    values[255] = 1;
    assert_eq!(rt; judged_zeros(rt.alloc(), 64, &values), Some(None));
    let found = refused_zeros(rt.alloc(), 65);
    assert_eq!(rt; found, Some((322, RefusalKind::Limit)));
}

#[test]
fn one_count_too_many_is_refused(rt: HostRuntime) {
    for line in PAST_LINES {
        let found = refused_past(rt.alloc(), line.as_bytes());
        assert_eq!(rt; found, Some((322, RefusalKind::Limit)), "{line}");
    }
}
