//! Models: which are read, which are refused and why, and how values are judged by them.

use crate::texts::{MOST_BYTES, numbered, repeat};
use hk_base::{Bytes, List};
use hk_group::{Problem, judge};
use hk_model::{ModelError, Refusal, RefusalKind, read_model};
use std::alloc::{AllocError, Global};

/// Two variables of which one is 1, where the first being 1 is worth 1.
pub const WORTH: &str =
    "hkm 1\nvar x in 0..1\nvar y in 0..1\nsum (1*x, 1*y) 1..1\nminimize (-1*x)\n";

/// Two variables of two values, which are different.
pub const PAIR: &str = "hkm 1\nvar x in 0..1\nvar y in 0..1\nalldifferent (x, y)\n";

/// A specification of lists that rise, posted on two variables.
const RISE: &str =
    "hkm 1\nvar x in 0..3\nvar y in 0..3\nspec rise ()\ndown m Min 0\ntest ((i < 1) or (m < v))\nstep m v\nend\npost rise () (x, y)\n";

/// A specification with a parameter of each kind, posted with an argument for each.
const NEAR: &str =
    "hkm 1\nvar x in 0..5\nvar y in 0..5\nspec near (num a, set b, list c)\ntest ((v <= a) and ((v in b) and (c[i] < v)))\nend\npost near (4, {5, 0..2}, [1, -1]) (x, y)\n";

/// The problem that a text spells, where it spells one.
pub fn spelled(alloc: Global, text: &[u8]) -> Option<Problem> {
    if text.len() > MOST_BYTES {
        return None;
    }
    read_model(alloc, text).ok()
}

/// The line and the kind of the refusal of a text, where it has one.
pub fn refused(alloc: Global, text: &[u8]) -> Option<(u32, RefusalKind)> {
    if text.len() > MOST_BYTES {
        return None;
    }
    match read_model(alloc, text) {
        Ok(problem) => {
            drop(problem);
            None
        }
        Err(ModelError::Refused(refusal)) => Some((refusal.line, refusal.kind)),
        Err(_) => None,
    }
}

/// How many variables and constraints a text declares, and whether an objective.
fn declared(alloc: Global, text: &[u8]) -> Option<(usize, usize, bool)> {
    let problem = spelled(alloc, text)?;
    let variables = problem.domains().len();
    let constraints = problem.constraints().len();
    let has_objective = problem.objective().is_some();
    drop(problem);
    Some((variables, constraints, has_objective))
}

/// The same of the header and so many lines of a number between these texts.
fn declared_by_lines(
    alloc: Global,
    before: &[u8],
    after: &[u8],
    count: u16,
) -> Option<(usize, usize, bool)> {
    let text = numbered(alloc, b"hkm 1\n", before, after, count).ok()?;
    declared(alloc, text.as_slice())
}

/// The same of a text with spaces after it up to the most bytes that are read.
fn declared_by_padded(alloc: Global, text: &[u8]) -> Option<(usize, usize, bool)> {
    let text = padded(alloc, text).ok()?;
    declared(alloc, text.as_slice())
}

/// The text, and spaces up to the most bytes that are read.
fn padded(alloc: Global, text: &[u8]) -> Result<Bytes, AllocError> {
    let mut out = List::new(alloc);
    out.push_all(text)?;
    repeat(&mut out, b" ", MOST_BYTES.saturating_sub(text.len()))?;
    Ok(out)
}

/// The line and the kind of the refusal of the header and so many lines of a number between these
/// texts.
fn refused_lines(
    alloc: Global,
    before: &[u8],
    after: &[u8],
    count: u16,
) -> Option<(u32, RefusalKind)> {
    let text = numbered(alloc, b"hkm 1\n", before, after, count).ok()?;
    refused(alloc, text.as_slice())
}

/// What the values cost by a problem, where there is one below 128 for each variable; None where they
/// don't keep the constraints.
fn judged_by(alloc: Global, problem: &Problem, values: &[u8]) -> Option<Option<i64>> {
    if problem.domains().len() != values.len() || values.iter().any(|value| *value > 127) {
        return None;
    }
    judge(alloc, problem, values).ok()
}

/// The same by the problem that a text spells.
pub fn judged(alloc: Global, text: &[u8], values: &[u8]) -> Option<Option<i64>> {
    let problem = spelled(alloc, text)?;
    let cost = judged_by(alloc, &problem, values);
    drop(problem);
    cost
}

/// The same by so many variables that no constraint binds.
fn judged_free(alloc: Global, values: &[u8], count: u16) -> Option<Option<i64>> {
    let text = numbered(alloc, b"hkm 1\n", b"var x", b" in 0..127\n", count).ok()?;
    judged(alloc, text.as_slice(), values)
}

/// A text, how many variables and constraints it declares, and whether an objective.
type Read = (&'static str, usize, usize, bool);

const GOOD_MODELS: &[Read] = &[
    ("hkm 1", 0, 0, false),
    ("hkm 1\n# days\n\nvar x in 0..127 # a day\n", 1, 0, false),
    (
        "hkm 1\nvar x in {127}\nvar y in {3, 0..1, 1..2}\n",
        2,
        0,
        false,
    ),
    (
        "hkm 1\nvar x in 0..1\nvar y in 0..1\nvar z in 0..1\nalldifferent (x, y, z)\n",
        3,
        1,
        false,
    ),
    (
        "hkm 1\nvar x in 0..1\nvar y in 0..1\nsum (1*x, -1000000*y) 1..-1\nminimize (-1*x)\n",
        2,
        1,
        true,
    ),
    (
        "hkm 1\nvar x in 0..2\nspec atleast (num a)\ntest (v >= a)\nend\npost atleast (2) (x)\n",
        1,
        1,
        false,
    ),
    (
        "hkm 1\nspec x ()\n# any\ntest true\n\nend\nvar x in 0..1\n",
        1,
        0,
        false,
    ),
    (RISE, 2, 1, false),
    (NEAR, 2, 1, false),
];

#[test]
fn models_are_read(rt: HostRuntime) {
    for (text, variables, constraints, objective) in GOOD_MODELS {
        let found = declared(rt.alloc(), text.as_bytes());
        assert_eq!(rt;
            found,
            Some((*variables, *constraints, *objective)),
            "{text}"
        );
    }
}

#[test]
fn the_greatest_models_are_read(rt: HostRuntime) {
    let alloc = rt.alloc();
    let longest = declared_by_padded(alloc, b"hkm 1");
    assert_eq!(rt; longest, Some((0, 0, false)));
    let variables = declared_by_lines(alloc, b"var x", b" in 0..127\n", 256);
    assert_eq!(rt; variables, Some((256, 0, false)));
    let specifications = declared_by_lines(alloc, b"spec s", b" ()\ntest true\nend\n", 64);
    assert_eq!(rt; specifications, Some((0, 0, false)));
}

#[test]
fn values_are_judged(rt: HostRuntime) {
    let rows: [(&str, &[u8], Option<i64>); 14] = [
        ("hkm 1", &[], Some(0)),
        (
            "hkm 1\nvar x in 0..1\nminimize (-3*x)\n",
            &[127],
            Some(-381),
        ),
        (
            "hkm 1\nvar x in 0..9\nvar y in 0..9\nvar z in 0..9\nalldifferent (x, y, z)\n",
            &[3, 4, 3],
            None,
        ),
        (
            "hkm 1\nvar x in 0..9\nvar y in 0..9\nsum (2*x, -1*y) 1..3\nminimize (1*x, 5*y)\n",
            &[2, 1],
            Some(7),
        ),
        (RISE, &[0, 1], Some(0)),
        (RISE, &[1, 1], None),
        (NEAR, &[2, 0], Some(0)),
        (NEAR, &[5, 0], None),
        (NEAR, &[4, 0], None),
        (NEAR, &[1, 0], None),
        (WORTH, &[1, 0], Some(-1)),
        (WORTH, &[1, 1], None),
        (PAIR, &[0, 1], Some(0)),
        (PAIR, &[1, 1], None),
    ];
    for (text, values, cost) in rows {
        let found = judged(rt.alloc(), text.as_bytes(), values);
        assert_eq!(rt; found, Some(cost), "{values:?} by {text}");
    }
    let free = judged_free(rt.alloc(), &[127; 256], 256);
    assert_eq!(rt; free, Some(Some(0)), "256 values");
}

/// A text, and the line and the kind of its refusal.
type Refused = (&'static str, u32, RefusalKind);

const BAD_MODELS: &[Refused] = &[
    ("", 1, RefusalKind::Unfinished),
    ("# nothing\n", 2, RefusalKind::Unfinished),
    ("hkm 1\nvar $", 2, RefusalKind::Text),
    ("hkm 2", 1, RefusalKind::Syntax),
    ("hkm 1\nx", 2, RefusalKind::Syntax),
    (
        "hkm 1\nvar x in 0..1\nalldifferent (x) x",
        3,
        RefusalKind::Syntax,
    ),
    ("var x in {0}", 1, RefusalKind::Syntax),
    ("hkm 1\nvar x in {}", 2, RefusalKind::Limit),
    ("hkm 1\nvar x in 0..128", 2, RefusalKind::Limit),
    ("hkm 1\nvar x in 1..0", 2, RefusalKind::Limit),
    ("hkm 1\nvar x in {3, 2..1}", 2, RefusalKind::Limit),
    ("hkm 1\nvar x in 00..1", 2, RefusalKind::Syntax),
    (
        "hkm 1\nvar x in 0..123456789012345678901234567890",
        2,
        RefusalKind::Limit,
    ),
    (
        "hkm 1\nvar x in 0..1\nvar x in 0..128",
        3,
        RefusalKind::Name,
    ),
    (
        "hkm 1\nvar x in 0..1\nvar y in 0..1\nalldifferent (y, x)",
        4,
        RefusalKind::Scope,
    ),
    (
        "hkm 1\nvar x in 0..1\nsum (1000001*x) 1..1",
        3,
        RefusalKind::Limit,
    ),
    (
        "hkm 1\nvar x in 0..1\nsum (-0*x) 1..1",
        3,
        RefusalKind::Syntax,
    ),
    (
        "hkm 1\nvar x in 0..1\nsum (1*x) 0..1000000000001",
        3,
        RefusalKind::Limit,
    ),
    (
        "hkm 1\nvar x in 0..1\nminimize (1*x)\nminimize (2000000*x)",
        4,
        RefusalKind::Name,
    ),
    ("hkm 1\nvar x in 0..1\ngroup x", 3, RefusalKind::Syntax),
    ("group\nhkm 1", 1, RefusalKind::Syntax),
];

const BAD_SPECIFICATIONS: &[Refused] = &[
    ("hkm 1\nspec s ()", 3, RefusalKind::Unfinished),
    ("spec s ()", 1, RefusalKind::Syntax),
    ("hkm 1\nend", 2, RefusalKind::Syntax),
    ("hkm 1\nspec s ()\nend", 3, RefusalKind::Syntax),
    ("hkm 1\nspec s ()\ngroup", 3, RefusalKind::Syntax),
    ("hkm 1\nspec s ()\ntest (best <= v)", 3, RefusalKind::Name),
    (
        "hkm 1\nspec s ()\ntest true\nend\nspec s ()",
        5,
        RefusalKind::Name,
    ),
    (
        "hkm 1\nvar x in 0..1\nspec s ()\ntest true\npost s () (x)",
        5,
        RefusalKind::Syntax,
    ),
    ("hkm 1\nvar x in 0..1\npost s () (x)", 3, RefusalKind::Name),
    (
        "hkm 1\nvar x in 0..2\nspec atleast (num a)\ntest (v >= a)\nend\npost atleast (2, 3) (x)",
        6,
        RefusalKind::Name,
    ),
    (
        "hkm 1\nvar x in 0..2\nspec atleast (num a)\ntest (v >= a)\nend\npost atleast ({2}) (x)",
        6,
        RefusalKind::Name,
    ),
    (
        "hkm 1\nvar x in 0..1\nspec s (list c)\ntest (c[i] <= v)\nend\npost s ([1, 2]) (x)",
        6,
        RefusalKind::Limit,
    ),
    (
        "hkm 1\nvar x in 0..1\nvar y in 0..1\nspec s ()\ntest true\nend\npost s () (y, x)",
        7,
        RefusalKind::Scope,
    ),
    (
        "hkm 1\nvar x in 0..1\nspec s (num a)\ntest (v >= a)\nend\npost s (1000000000001) (x)",
        6,
        RefusalKind::Limit,
    ),
];

const BAD_GRADES: &[Refused] = &[
    (
        "hkm 1\nspec s ()\ndown m Min 0\ntest (m > v)",
        4,
        RefusalKind::Grade,
    ),
    (
        "hkm 1\nspec s ()\ndown m Min 0\ntest (m > v)\nx",
        4,
        RefusalKind::Grade,
    ),
    (
        "hkm 1\nspec s ()\ndown m Min 0\ntest (m > v) x",
        4,
        RefusalKind::Syntax,
    ),
    (
        "hkm 1\nspec s ()\ndown m Min 0\ntest (m > q)",
        4,
        RefusalKind::Name,
    ),
    (
        "hkm 1\nspec s ()\ndown m Min 0\ntest ((m > v) and (best < v))",
        4,
        RefusalKind::Name,
    ),
    (
        "hkm 1\nspec s ()\ndown m Min 0\ntest (m > 1000000000001)",
        4,
        RefusalKind::Limit,
    ),
    (
        "hkm 1\nspec s ()\nup m AllBits {}\ntest ((v in m) and (v in {128}))",
        4,
        RefusalKind::Limit,
    ),
    (
        "hkm 1\nspec s ()\ndown m Max 0\ntest (m > v)\nstep m (- m)",
        5,
        RefusalKind::Grade,
    ),
    (
        "hkm 1\nspec s ()\ndown m Max 0\ntest true\nstep k (- m)",
        5,
        RefusalKind::Name,
    ),
    (
        "hkm 1\nspec s ()\ndown m Max 0\nup k Max 0\ntest true\nstep m (k - m)",
        6,
        RefusalKind::Name,
    ),
    (
        "hkm 1\nspec s ()\ndown m Max 0\ntest true\nstep m (1000000000001 - m)",
        5,
        RefusalKind::Limit,
    ),
    (
        "hkm 1\nspec s ()\ndown m Interval 0..0\ntest true\nstep m v m.lo\nend",
        5,
        RefusalKind::Grade,
    ),
    (
        "hkm 1\nspec s ()\ndown m Min 0\nup k Min 0\ntest true\nstep m m\nstep k (v - k)\nend\nend",
        7,
        RefusalKind::Grade,
    ),
    (
        "hkm 1\nvar x in 0..1\nspec s ()\ndown m Min 0\ntest (m > v)\nstep m v\nend\npost s () (x)",
        5,
        RefusalKind::Grade,
    ),
    (
        "hkm 1\nvar x in 0..1\nspec s ()\ndown m Min 0\ntest (m < v)\nstep m v\nend\npost s () (x, x)",
        8,
        RefusalKind::Scope,
    ),
];

/// The first of these texts of which another refusal is told.
fn other_refusal(alloc: Global, rows: &[Refused]) -> Option<&'static str> {
    for (text, line, kind) in rows {
        if refused(alloc, text.as_bytes()) != Some((*line, *kind)) {
            return Some(*text);
        }
    }
    None
}

#[test]
fn refusals_are_told(rt: HostRuntime) {
    for rows in [BAD_MODELS, BAD_SPECIFICATIONS, BAD_GRADES] {
        assert_eq!(rt; other_refusal(rt.alloc(), rows), None);
    }
}

#[test]
fn too_great_models_are_refused(rt: HostRuntime) {
    let alloc = rt.alloc();
    let variables = refused_lines(alloc, b"var x", b" in 0..127\n", 257);
    assert_eq!(rt; variables, Some((258, RefusalKind::Limit)));
    let specifications = refused_lines(alloc, b"spec s", b" ()\ntest true\nend\n", 65);
    assert_eq!(rt; specifications, Some((194, RefusalKind::Limit)));
}

/// Whether this is said of an error.
fn is_said(alloc: Global, error: ModelError, text: &str) -> bool {
    match error.to_string(alloc) {
        Ok(said) => said.as_str() == text,
        Err(_) => false,
    }
}

#[test]
fn errors_are_said_in_words(rt: HostRuntime) {
    let refused = ModelError::Refused(Refusal {
        line: 7,
        kind: RefusalKind::Name,
    });
    let told = [
        is_said(rt.alloc(), refused, "the model is refused at line 7"),
        is_said(rt.alloc(), ModelError::Memory, "no memory for the model"),
    ];
    assert_eq!(rt; told, [true; 2]);
}
