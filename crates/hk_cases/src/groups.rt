//! Groups of models: which constraints and objectives stand in one group, and how many groups may
//! have something in them.

use crate::models::{refused, spelled};
use crate::texts::numbered;
use hk_base::Bytes;
use hk_group::Group;
use hk_model::RefusalKind;
use std::alloc::{AllocError, Global};

/// A text, and the variables of each of its groups.
type Grouped = (&'static str, &'static [&'static [u16]]);

const GROUPED: &[Grouped] = &[
    ("hkm 1\nvar x in 0..1\ngroup\n", &[]),
    (
        "hkm 1\nvar x in 0..1\nvar y in 0..1\nvar z in 0..1\nalldifferent (x, y)\nalldifferent (y, z)\n",
        &[&[0, 1, 2]],
    ),
    (
        "hkm 1\ngroup\ngroup\nvar x in 0..1\nvar y in 0..1\nvar z in 0..1\nalldifferent (x, y)\nsum (1*y, 1*z) 0..1\ngroup\n",
        &[&[0, 1, 2]],
    ),
    (
        "hkm 1\nvar x in 0..1\nvar y in 0..1\nvar z in 0..1\nalldifferent (x, y)\ngroup\ngcc (y, z) 0:0..1\n",
        &[&[0, 1], &[1, 2]],
    ),
    (
        "hkm 1\nvar x in 0..1\nvar y in 0..1\nvar z in 0..1\nminimize (1*z)\ngroup\nvar w in 0..1\namong (x, w) {0} 1..2\nsequence 1 (y) {0} 0..1\n",
        &[&[2], &[0, 1, 3]],
    ),
];

/// A variable, and a specification that accepts all values.
const ABOVE: &[u8] = b"hkm 1\nvar x in 0..1\nspec any ()\ntest true\nend\n";

/// Lines that are good, but for the number of groups before them.
const FIRST_LINES: &[&str] = &[
    "alldifferent (x)\n",
    "among (x) {0} 0..1\n",
    "sequence 1 (x) {0} 0..1\n",
    "gcc (x) 0:0..1\n",
    "sum (1*x) 0..1\n",
    "minimize (1*x)\n",
    "post any () (x)\n",
];

/// Whether the groups have these variables.
fn have_variables(groups: &[Group], expected: &[&[u16]]) -> bool {
    if groups.len() != expected.len() {
        return false;
    }
    for (group, variables) in groups.iter().zip(expected) {
        if group.vars() != *variables {
            return false;
        }
    }
    true
}

/// Whether the groups of a text have these variables.
fn is_grouped(alloc: Global, text: &[u8], expected: &[&[u16]]) -> Option<bool> {
    let problem = spelled(alloc, text)?;
    let same = have_variables(problem.groups(), expected);
    drop(problem);
    Some(same)
}

/// A model of 32 groups, and a line below it.
fn with_line(alloc: Global, line: &str) -> Result<Bytes, AllocError> {
    let mut text = numbered(alloc, ABOVE, b"group\nsum (1*x) 0..", b"\n", 32)?;
    text.push_all(b"group\n")?;
    text.push_all(line.as_bytes())?;
    Ok(text)
}

/// Whether, and why, the line is refused as what would begin a 33rd group.
fn refused_first(alloc: Global, line: &str) -> Option<Option<(u32, RefusalKind)>> {
    let text = with_line(alloc, line).ok()?;
    Some(refused(alloc, text.as_slice()))
}

#[test]
fn groups_are_read(rt: HostRuntime) {
    for (text, expected) in GROUPED {
        let found = is_grouped(rt.alloc(), text.as_bytes(), expected);
        assert_eq!(rt; found, Some(true), "{text}");
    }
}

#[test]
fn nothing_may_begin_a_33rd_group(rt: HostRuntime) {
    for line in FIRST_LINES {
        let found = refused_first(rt.alloc(), line);
        assert_eq!(rt; found, Some(Some((71, RefusalKind::Limit))), "{line}");
    }
    for line in ["", "group\n", "var y in 0..1\ngroup\n"] {
        assert_eq!(rt; refused_first(rt.alloc(), line), Some(None), "{line}");
    }
}
