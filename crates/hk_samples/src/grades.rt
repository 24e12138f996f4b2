//! Grades: which specifications are graded, and of the others the first place whose sense isn't
//! allowed, with that sense.

use crate::texts::{RISE, is_printed, joined, written};
use hk_grade::{GradeError, Graded, Place, Sense, grade};
use hk_spec::Spec;
use std::alloc::Global;

/// The first place whose sense isn't allowed, with that sense; None of a graded specification.
type Told = Option<(Place, Sense)>;

/// What is told of a test that falls.
const FALLS: Told = Some((Place::Test, Sense::Falls));

/// What is told of a test that may move either way.
const MIXED: Told = Some((Place::Test, Sense::Mixed));

/// What is told of a first down step and of a first up step that move so.
const DOWN_RISES: Told = Some((Place::Down(0), Sense::Rises));

const DOWN_FALLS: Told = Some((Place::Down(0), Sense::Falls));

const DOWN_MIXED: Told = Some((Place::Down(0), Sense::Mixed));

const UP_RISES: Told = Some((Place::Up(0), Sense::Rises));

const UP_FALLS: Told = Some((Place::Up(0), Sense::Falls));

/// What is told of a specification.
fn told_of_spec(alloc: Global, spec: &Spec) -> Option<Told> {
    match grade(alloc, spec) {
        Ok(graded) => {
            drop(graded);
            Some(None)
        }
        Err(GradeError::Fault(fault)) => Some(Some((fault.place, fault.found))),
        Err(GradeError::Memory) => None,
    }
}

/// What is told of the specification that a text writes.
fn told_of_text(alloc: Global, text: &[u8]) -> Option<Told> {
    let spec = written(alloc, text)?;
    let told = told_of_spec(alloc, &spec);
    drop(spec);
    told
}

/// What is told of the specification that these pieces make.
fn told_of(alloc: Global, pieces: &[&str]) -> Option<Told> {
    let text = joined(alloc, pieces).ok()?;
    told_of_text(alloc, text.as_slice())
}

/// Whether this is told of the specification that these pieces make.
fn is_told(alloc: Global, pieces: &[&str], told: Told) -> bool {
    told_of(alloc, pieces) == Some(told)
}

/// A specification, graded.
fn graded_of_spec(alloc: Global, spec: &Spec) -> Option<Graded> {
    grade(alloc, spec).ok()
}

/// The specification that a text writes, graded.
fn graded_of(alloc: Global, text: &[u8]) -> Option<Graded> {
    let spec = written(alloc, text)?;
    let graded = graded_of_spec(alloc, &spec);
    drop(spec);
    graded
}

/// Whether the specification that a text writes is printed as another once it is graded, both as it is
/// lent and as it is let go of.
fn is_graded_as(alloc: Global, text: &[u8], spaced: &[u8]) -> Option<bool> {
    let graded = graded_of(alloc, text)?;
    let lent = is_printed(alloc, graded.spec(), spaced);
    let spec = graded.into_spec();
    let given = is_printed(alloc, &spec, spaced);
    drop(spec);
    Some(lent? && given?)
}

/// A specification with a parameter and a property of each kind, up to its test.
const BEFORE_TEST: &str =
    "spec each (num a, set b, list c)\ndown m Min 0\ndown x Max 0\ndown p Interval 0..0\nup s SomeBits {}\nup t AllBits {}\ntest ";

/// What stands in it after the test, each step as it is allowed.
const AFTER_TEST: &str = "\nstep m m\nstep x x\nstep p p.lo p.hi\nstep s s\nstep t t\nend\n";

/// A test or a whole specification, and what is told of the specification.
type Row = (&'static str, Told);

/// Tests for each form of a number: alone, or compared with one that stays.
const NUMBERS: &[Row] = &[
    ("(5 == -5)", None),
    ("(v == i)", None),
    ("(n == a)", None),
    ("(c[i] == card(b))", None),
    ("(m >= 0)", FALLS),
    ("(m <= 0)", None),
    ("(x <= 0)", FALLS),
    ("(x >= 0)", None),
    ("(p.lo > 0)", FALLS),
    ("(p.lo < 0)", None),
    ("(p.hi < 0)", FALLS),
    ("(p.hi > 0)", None),
    ("(card(s) > i)", None),
    ("(card(s) < i)", FALLS),
    ("(card(t) > i)", FALLS),
    ("(card((s | t)) > i)", MIXED),
    ("((x + a) > 0)", None),
    ("((p.lo + m) > 0)", FALLS),
    ("((m + x) > 0)", MIXED),
    ("(min(x, p.hi) > 0)", None),
    ("(min(m, x) > 0)", MIXED),
    ("(max(v, x) < 0)", FALLS),
    ("(max(p.lo, p.hi) < 0)", MIXED),
    ("((x - m) > 0)", None),
    ("((m - x) > 0)", FALLS),
    ("((a - x) > 0)", FALLS),
    ("((x - x) > 0)", MIXED),
    ("((- m) > 0)", None),
    ("((- x) > 0)", FALLS),
    ("((- (m + x)) > 0)", MIXED),
    ("((2 * x) > 0)", None),
    ("((x * 2) > 0)", None),
    ("((-2 * x) > 0)", FALLS),
    ("((m * -2) > 0)", None),
    ("((0 * m) > 0)", FALLS),
    ("((m * 0) > 0)", FALLS),
    ("((-5 * m) > 0)", None),
    ("(((-5) * m) > 0)", MIXED),
    ("(((2 * 3) * m) > 0)", MIXED),
    ("((a * x) > 0)", MIXED),
    ("((x * x) > 0)", MIXED),
    ("((-2 * (m + x)) > 0)", MIXED),
    ("((-2 * a) == (v * c[i]))", None),
    ("(((-5) * 3) == 0)", None),
];

/// Tests for each form of a set.
const SETS: &[Row] = &[
    ("(card({}) == card({v}))", None),
    ("(card({1, 3}) == card((b | {v})))", None),
    ("(v in s)", None),
    ("(v in t)", FALLS),
    ("(v in (s | b))", None),
    ("(v in (t | {1}))", FALLS),
    ("(v in (s | t))", MIXED),
    ("(v in (s & s))", None),
    ("(v in ({v} & t))", FALLS),
    ("(v in (t & s))", MIXED),
    ("(v in (s \\ t))", None),
    ("(v in (t \\ s))", FALLS),
    ("(v in (b \\ s))", FALLS),
    ("(v in ({} \\ t))", None),
    ("(v in (s \\ s))", MIXED),
];

/// Tests of each form.
const CONDITIONS: &[Row] = &[
    ("true", None),
    ("(not false)", None),
    ("(m <= x)", None),
    ("(x <= m)", FALLS),
    ("(x <= x)", MIXED),
    ("(m < x)", None),
    ("(x < m)", FALLS),
    ("(m < m)", MIXED),
    ("(x >= m)", None),
    ("(m >= x)", FALLS),
    ("(m >= m)", MIXED),
    ("(x > m)", None),
    ("(m > x)", FALLS),
    ("(x > x)", MIXED),
    ("(v == a)", None),
    ("(m == 0)", MIXED),
    ("(0 == x)", MIXED),
    ("(m == x)", MIXED),
    ("(v in b)", None),
    ("(v notin s)", FALLS),
    ("(v notin t)", None),
    ("(v notin (s | t))", MIXED),
    ("(t sub s)", None),
    ("(s sub t)", FALLS),
    ("(s sub s)", MIXED),
    ("((v in s) and (v notin t))", None),
    ("(true and (v in t))", FALLS),
    ("((v in s) and (v in t))", MIXED),
    ("((m < v) or (v in s))", None),
    ("((m > v) or (v in t))", FALLS),
    ("((card(s) > i) or (v notin s))", MIXED),
    ("(not (v in t))", None),
    ("(not (v in s))", FALLS),
    ("(not (m == 0))", MIXED),
];

/// The first of these tests of whose specification something else is told.
fn other_test(alloc: Global, rows: &[Row]) -> Option<&'static str> {
    for (test, told) in rows {
        if !is_told(alloc, &[BEFORE_TEST, *test, AFTER_TEST], *told) {
            return Some(*test);
        }
    }
    None
}

#[test]
fn tests_may_be_fixed_or_rise(rt: HostRuntime) {
    for rows in [NUMBERS, SETS, CONDITIONS] {
        assert_eq!(rt; other_test(rt.alloc(), rows), None);
    }
}

/// The line of a property `p`, its step, and what is told of the specification that has it alone.
type Stepped = (&'static str, &'static str, Told);

/// Steps for each kind of property.
const STEPS: &[Stepped] = &[
    ("down p Min 0", "v", None),
    ("down p Min 0", "min(p, v)", None),
    ("down p Min 0", "(v - p)", DOWN_RISES),
    ("down p Min 0", "(p - p)", DOWN_MIXED),
    ("up p Min 0", "(- p)", UP_RISES),
    ("down p Max 0", "v", None),
    ("down p Max 0", "max(p, v)", None),
    ("down p Max 0", "(v - p)", DOWN_FALLS),
    ("down p Max 0", "(p - p)", DOWN_MIXED),
    ("up p Max 0", "(- p)", UP_FALLS),
    ("down p Interval 0..0", "v i", None),
    ("down p Interval 0..0", "p.lo p.hi", None),
    ("down p Interval 0..0", "(- p.hi) (- p.lo)", None),
    ("down p Interval 0..0", "p.hi p.hi", DOWN_RISES),
    ("down p Interval 0..0", "p.lo p.lo", DOWN_FALLS),
    ("down p Interval 0..0", "p.hi p.lo", DOWN_RISES),
    ("down p Interval 0..0", "(p.lo + p.hi) p.lo", DOWN_MIXED),
    ("down p Interval 0..0", "v (p.lo * p.hi)", DOWN_MIXED),
    ("up p Interval 0..0", "p.hi (p.lo + p.hi)", UP_RISES),
    ("down p SomeBits {}", "{v}", None),
    ("down p SomeBits {}", "(p | {v})", None),
    ("down p SomeBits {}", "({v} \\ p)", DOWN_FALLS),
    ("down p SomeBits {}", "(p \\ p)", DOWN_MIXED),
    ("up p SomeBits {}", "({v} \\ p)", UP_FALLS),
    ("down p AllBits {}", "{v}", None),
    ("down p AllBits {}", "(p & {v})", None),
    ("down p AllBits {}", "({v} \\ p)", DOWN_RISES),
    ("down p AllBits {}", "(p \\ p)", DOWN_MIXED),
    ("up p AllBits {}", "({v} \\ p)", UP_RISES),
];

/// The first of these properties and steps of whose specification something else is told.
fn other_step(alloc: Global, rows: &[Stepped]) -> Option<(&'static str, &'static str)> {
    for (property, step, told) in rows {
        let pieces = [
            "spec s ()\n",
            *property,
            "\ntest true\nstep p ",
            *step,
            "\nend\n",
        ];
        if !is_told(alloc, &pieces, *told) {
            return Some((*property, *step));
        }
    }
    None
}

#[test]
fn steps_may_move_as_their_kind(rt: HostRuntime) {
    assert_eq!(rt; other_step(rt.alloc(), STEPS), None);
}

/// The specification of lists that rise, as it is printed.
const RISE_SPACED: &str =
    "spec rise ()\ndown m Min 0\ntest ( ( i < 1 ) or ( m < v ) )\nstep m v\nend\n";

/// Specifications, and what is told of each.
const WHOLES: &[Row] = &[
    (RISE, None),
    (
        "spec rise ()\ndown m Max 0\ntest ((i < 1) or (m < v))\nstep m v\nend\n",
        FALLS,
    ),
    (
        "spec naive ()\ndown some SomeBits {}\ntest ((card(some) > i) or (v notin some))\nstep some (some | {v})\nend\n",
        MIXED,
    ),
    (
        "spec s ()\ndown m Min 0\ndown k Min 0\nup x Max 0\nup y Max 0\ntest true\nstep m m\nstep k (m + k)\nstep x y\nstep y (- x)\nend\n",
        Some((Place::Up(1), Sense::Falls)),
    ),
    (
        "spec s ()\ndown m Min 0\ndown k Max 0\nup x Max 0\ntest true\nstep m m\nstep k (m - k)\nstep x (x - x)\nend\n",
        Some((Place::Down(1), Sense::Falls)),
    ),
    (
        "spec s ()\ndown m Min 0\nup x Max 0\ntest (m == v)\nstep m (- m)\nstep x v\nend\n",
        MIXED,
    ),
    (
        "spec s ()\ndown m Min 0\ndown k Min 0\ntest true\nstep m (- k)\nstep k (m - m)\nend\n",
        DOWN_RISES,
    ),
];

/// The first of these specifications of which something else is told.
fn other_whole(alloc: Global, rows: &[Row]) -> Option<&'static str> {
    for (text, told) in rows {
        if !is_told(alloc, &[*text], *told) {
            return Some(*text);
        }
    }
    None
}

#[test]
fn first_wrong_places_are_told(rt: HostRuntime) {
    assert_eq!(rt; other_whole(rt.alloc(), WHOLES), None);
    let printed = is_graded_as(rt.alloc(), RISE.as_bytes(), RISE_SPACED.as_bytes());
    assert_eq!(rt; printed, Some(true));
}
