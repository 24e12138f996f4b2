//! The library's constraints: how many of all lists of values from 0 to 2 each accepts, by its exact
//! run and by its meaning, which are asked of each list. The numbers are worked by hand.

use crate::specs::accepted_below;
use crate::texts::{MOST_BYTES, is_printed, joined};
use hk_base::List;
use hk_group::{Problem, judge};
use hk_lib::{alldifferent, among, gcc, objective, sequence, sum};
use hk_model::read_model;
use hk_spec::{Bound, Bounds};
use std::alloc::{AllocError, Global};
use std::test::Fail;

/// Four variables of three values.
const FOUR: &str = "hkm 1\nvar a in 0..2\nvar b in 0..2\nvar c in 0..2\nvar d in 0..2\n";

/// Three variables of three values.
const THREE: &str = "hkm 1\nvar a in 0..2\nvar b in 0..2\nvar c in 0..2\n";

/// The list of this number, of all lists of values from 0 to 2.
fn list_of(number: u8) -> [u8; 4] {
    [number % 3, number / 3 % 3, number / 9 % 3, number / 27 % 3]
}

/// Whether each of the specifications accepts the values.
fn all_accept(alloc: Global, bounds: &[Bound], values: &[u8], best: i64) -> Option<bool> {
    for bound in bounds {
        if !accepted_below(alloc, bound, values, best)? {
            return Some(false);
        }
    }
    Some(true)
}

/// Whether the values make a problem's constraints hold, where there is one below 128 for each
/// variable.
fn is_solved(alloc: Global, problem: &Problem, values: &[u8]) -> Option<bool> {
    if problem.domains().len() != values.len() || values.iter().any(|value| *value > 127) {
        return None;
    }
    Some(judge(alloc, problem, values).ok()?.is_some())
}

/// How many of so many lists of `len` values the specifications accept, where these are the lists
/// that the problem's constraints allow.
fn accepted_lists(
    alloc: Global,
    bounds: &[Bound],
    problem: &Problem,
    len: usize,
    lists: u8,
) -> Option<u32> {
    let mut count = 0;
    for number in 0..lists {
        let list = list_of(number);
        let values = list.get(..len)?;
        let accepted = all_accept(alloc, bounds, values, 0)?;
        if is_solved(alloc, problem, values)? != accepted {
            return None;
        }
        if accepted {
            count += 1;
        }
    }
    Some(count)
}

/// One specification as a list.
fn single(alloc: Global, bound: Result<Bound, AllocError>) -> Result<Bounds, AllocError> {
    let bound = bound?;
    let mut bounds = List::new(alloc);
    bounds.push(bound)?;
    Ok(bounds)
}

/// The specifications of a row, by its number.
fn bounds_of(alloc: Global, row: usize) -> Result<Bounds, AllocError> {
    match row {
        0 => single(alloc, alldifferent(alloc, 4)),
        1 => single(alloc, alldifferent(alloc, 3)),
        2 => single(alloc, among(alloc, 4, 0b010, 1, 2)),
        3 => single(alloc, among(alloc, 4, 0b101, 3, 4)),
        4 => single(alloc, among(alloc, 4, 0b010, 2, 1)),
        5 => single(alloc, sequence(alloc, 4, 2, 0b010, 1, 1)),
        6 => single(alloc, sequence(alloc, 4, 3, 0b011, 2, 3)),
        7 => single(alloc, sequence(alloc, 4, 5, 0b010, 9, 9)),
        8 => gcc(alloc, 4, &[(1, 2, 2)]),
        9 => gcc(alloc, 4, &[(0, 1, 1), (2, 1, 2)]),
        10 => single(alloc, sum(alloc, &[1, 1, 1, 1], 3, 4)),
        11 => single(alloc, sum(alloc, &[1, -1, 2, -2], 0, 0)),
        _ => Err(AllocError),
    }
}

/// The variables of a problem, its one constraint, how many variables and lists of their values there
/// are, and how many of the lists are allowed.
type Row = (&'static str, &'static str, usize, u8, u32);

const ROWS: &[Row] = &[
    (FOUR, "alldifferent (a, b, c, d)\n", 4, 81, 0),
    (THREE, "alldifferent (a, b, c)\n", 3, 27, 6),
    (FOUR, "among (a, b, c, d) {1} 1..2\n", 4, 81, 56),
    (FOUR, "among (a, b, c, d) {0, 2} 3..4\n", 4, 81, 48),
    (FOUR, "among (a, b, c, d) {1} 2..1\n", 4, 81, 0),
    (FOUR, "sequence 2 (a, b, c, d) {1} 1..1\n", 4, 81, 8),
    (FOUR, "sequence 3 (a, b, c, d) {0, 1} 2..3\n", 4, 81, 52),
    (FOUR, "sequence 5 (a, b, c, d) {1} 9..9\n", 4, 81, 81),
    (FOUR, "gcc (a, b, c, d) 1:2..2\n", 4, 81, 24),
    (FOUR, "gcc (a, b, c, d) 0:1..1, 2:1..2\n", 4, 81, 24),
    (FOUR, "sum (1*a, 1*b, 1*c, 1*d) 3..4\n", 4, 81, 35),
    (FOUR, "sum (1*a, -1*b, 2*c, -2*d) 0..0\n", 4, 81, 13),
];

/// The problem that a text spells, where it spells one.
fn spelled(alloc: Global, text: &[u8]) -> Option<Problem> {
    if text.len() > MOST_BYTES {
        return None;
    }
    read_model(alloc, text).ok()
}

/// How many lists the specifications and the constraint of a model allow.
fn allowed(alloc: Global, bounds: &[Bound], text: &[u8], len: usize, lists: u8) -> Option<u32> {
    let problem = spelled(alloc, text)?;
    let count = accepted_lists(alloc, bounds, &problem, len, lists);
    drop(problem);
    count
}

/// How many lists the specifications of a row and its constraint allow.
fn allowed_in(alloc: Global, row: usize, text: &[u8], len: usize, lists: u8) -> Option<u32> {
    let bounds = bounds_of(alloc, row).ok()?;
    let count = allowed(alloc, bounds.as_slice(), text, len, lists);
    drop(bounds);
    count
}

/// How many lists of four values cost less than the bound.
fn cheaper(alloc: Global, bound: &Bound, best: i64) -> Option<u32> {
    let mut count = 0;
    for number in 0..81 {
        if accepted_below(alloc, bound, &list_of(number), best)? {
            count += 1;
        }
    }
    Some(count)
}

/// The same by the objective that adds them up.
fn cheaper_sums(alloc: Global, best: i64) -> Option<u32> {
    let bound = objective(alloc, &[1, 1, 1, 1]).ok()?;
    let count = cheaper(alloc, &bound, best);
    drop(bound);
    count
}

/// The texts of the specifications of rows, by their numbers, as they are printed.
const TEXTS: &[(usize, &str)] = &[
    (
        0,
        "spec alldifferent ()\n\
     down some SomeBits { }\n\
     down all AllBits { }\n\
     up usome SomeBits { }\n\
     up uall AllBits { }\n\
     test ( ( ( v notin all ) and ( v notin uall ) ) and ( ( card ( ( some | { v } ) ) >= ( i + 1 ) ) and ( card ( ( usome | { v } ) ) >= ( n - i ) ) ) )\n\
     step some ( some | { v } )\n\
     step all ( all | { v } )\n\
     step usome ( usome | { v } )\n\
     step uall ( uall | { v } )\n\
     end\n",
    ),
    (
        2,
        "spec among ( num least , num most , set vals )\n\
     down c Interval 0 .. 0\n\
     up u Interval 0 .. 0\n\
     test ( ( ( ( c . lo + card ( ( { v } & vals ) ) ) + u . lo ) <= most ) and ( least <= ( ( c . hi + card ( ( { v } & vals ) ) ) + u . hi ) ) )\n\
     step c ( c . lo + card ( ( { v } & vals ) ) ) ( c . hi + card ( ( { v } & vals ) ) )\n\
     step u ( u . lo + card ( ( { v } & vals ) ) ) ( u . hi + card ( ( { v } & vals ) ) )\n\
     end\n",
    ),
    (
        8,
        "spec among ( num least , num most , set vals )\n\
     down c Interval 0 .. 0\n\
     up u Interval 0 .. 0\n\
     test ( ( ( ( c . lo + card ( ( { v } & vals ) ) ) + u . lo ) <= most ) and ( least <= ( ( c . hi + card ( ( { v } & vals ) ) ) + u . hi ) ) )\n\
     step c ( c . lo + card ( ( { v } & vals ) ) ) ( c . hi + card ( ( { v } & vals ) ) )\n\
     step u ( u . lo + card ( ( { v } & vals ) ) ) ( u . hi + card ( ( { v } & vals ) ) )\n\
     end\n",
    ),
    (
        10,
        "spec sum ( list k , num least , num most )\n\
     down s Interval 0 .. 0\n\
     up u Interval 0 .. 0\n\
     test ( ( ( ( s . lo + ( k [ i ] * v ) ) + u . lo ) <= most ) and ( least <= ( ( s . hi + ( k [ i ] * v ) ) + u . hi ) ) )\n\
     step s ( s . lo + ( k [ i ] * v ) ) ( s . hi + ( k [ i ] * v ) )\n\
     step u ( u . lo + ( k [ i ] * v ) ) ( u . hi + ( k [ i ] * v ) )\n\
     end\n",
    ),
];

/// The texts of `sequence`, by its window.
const SEQUENCES: &[(u16, &str)] = &[
    (
        1,
        "spec sequence ( num least , num most , set vals )\n\
     down a0 Interval 0 .. 0\n\
     test ( ( i < 0 ) or ( ( ( ( a0 . lo + card ( ( { v } & vals ) ) ) - a0 . hi ) <= most ) and ( least <= ( ( a0 . hi + card ( ( { v } & vals ) ) ) - a0 . lo ) ) ) )\n\
     step a0 ( a0 . lo + card ( ( { v } & vals ) ) ) ( a0 . hi + card ( ( { v } & vals ) ) )\n\
     end\n",
    ),
    (
        3,
        "spec sequence ( num least , num most , set vals )\n\
     down a0 Interval 0 .. 0\n\
     down a1 Interval 0 .. 0\n\
     down a2 Interval 0 .. 0\n\
     test ( ( i < 2 ) or ( ( ( ( a0 . lo + card ( ( { v } & vals ) ) ) - a2 . hi ) <= most ) and ( least <= ( ( a0 . hi + card ( ( { v } & vals ) ) ) - a2 . lo ) ) ) )\n\
     step a0 ( a0 . lo + card ( ( { v } & vals ) ) ) ( a0 . hi + card ( ( { v } & vals ) ) )\n\
     step a1 a0 . lo a0 . hi\n\
     step a2 a1 . lo a1 . hi\n\
     end\n",
    ),
    (
        11,
        "spec sequence ( num least , num most , set vals )\n\
     down a0 Interval 0 .. 0\n\
     down a1 Interval 0 .. 0\n\
     down a2 Interval 0 .. 0\n\
     down a3 Interval 0 .. 0\n\
     down a4 Interval 0 .. 0\n\
     down a5 Interval 0 .. 0\n\
     down a6 Interval 0 .. 0\n\
     down a7 Interval 0 .. 0\n\
     down a8 Interval 0 .. 0\n\
     down a9 Interval 0 .. 0\n\
     down a10 Interval 0 .. 0\n\
     test ( ( i < 10 ) or ( ( ( ( a0 . lo + card ( ( { v } & vals ) ) ) - a10 . hi ) <= most ) and ( least <= ( ( a0 . hi + card ( ( { v } & vals ) ) ) - a10 . lo ) ) ) )\n\
     step a0 ( a0 . lo + card ( ( { v } & vals ) ) ) ( a0 . hi + card ( ( { v } & vals ) ) )\n\
     step a1 a0 . lo a0 . hi\n\
     step a2 a1 . lo a1 . hi\n\
     step a3 a2 . lo a2 . hi\n\
     step a4 a3 . lo a3 . hi\n\
     step a5 a4 . lo a4 . hi\n\
     step a6 a5 . lo a5 . hi\n\
     step a7 a6 . lo a6 . hi\n\
     step a8 a7 . lo a7 . hi\n\
     step a9 a8 . lo a8 . hi\n\
     step a10 a9 . lo a9 . hi\n\
     end\n",
    ),
    (
        32,
        "spec sequence ( num least , num most , set vals )\n\
     down a0 Interval 0 .. 0\n\
     down a1 Interval 0 .. 0\n\
     down a2 Interval 0 .. 0\n\
     down a3 Interval 0 .. 0\n\
     down a4 Interval 0 .. 0\n\
     down a5 Interval 0 .. 0\n\
     down a6 Interval 0 .. 0\n\
     down a7 Interval 0 .. 0\n\
     down a8 Interval 0 .. 0\n\
     down a9 Interval 0 .. 0\n\
     down a10 Interval 0 .. 0\n\
     down a11 Interval 0 .. 0\n\
     down a12 Interval 0 .. 0\n\
     down a13 Interval 0 .. 0\n\
     down a14 Interval 0 .. 0\n\
     down a15 Interval 0 .. 0\n\
     down a16 Interval 0 .. 0\n\
     down a17 Interval 0 .. 0\n\
     down a18 Interval 0 .. 0\n\
     down a19 Interval 0 .. 0\n\
     down a20 Interval 0 .. 0\n\
     down a21 Interval 0 .. 0\n\
     down a22 Interval 0 .. 0\n\
     down a23 Interval 0 .. 0\n\
     down a24 Interval 0 .. 0\n\
     down a25 Interval 0 .. 0\n\
     down a26 Interval 0 .. 0\n\
     down a27 Interval 0 .. 0\n\
     down a28 Interval 0 .. 0\n\
     down a29 Interval 0 .. 0\n\
     down a30 Interval 0 .. 0\n\
     down a31 Interval 0 .. 0\n\
     test ( ( i < 31 ) or ( ( ( ( a0 . lo + card ( ( { v } & vals ) ) ) - a31 . hi ) <= most ) and ( least <= ( ( a0 . hi + card ( ( { v } & vals ) ) ) - a31 . lo ) ) ) )\n\
     step a0 ( a0 . lo + card ( ( { v } & vals ) ) ) ( a0 . hi + card ( ( { v } & vals ) ) )\n\
     step a1 a0 . lo a0 . hi\n\
     step a2 a1 . lo a1 . hi\n\
     step a3 a2 . lo a2 . hi\n\
     step a4 a3 . lo a3 . hi\n\
     step a5 a4 . lo a4 . hi\n\
     step a6 a5 . lo a5 . hi\n\
     step a7 a6 . lo a6 . hi\n\
     step a8 a7 . lo a7 . hi\n\
     step a9 a8 . lo a8 . hi\n\
     step a10 a9 . lo a9 . hi\n\
     step a11 a10 . lo a10 . hi\n\
     step a12 a11 . lo a11 . hi\n\
     step a13 a12 . lo a12 . hi\n\
     step a14 a13 . lo a13 . hi\n\
     step a15 a14 . lo a14 . hi\n\
     step a16 a15 . lo a15 . hi\n\
     step a17 a16 . lo a16 . hi\n\
     step a18 a17 . lo a17 . hi\n\
     step a19 a18 . lo a18 . hi\n\
     step a20 a19 . lo a19 . hi\n\
     step a21 a20 . lo a20 . hi\n\
     step a22 a21 . lo a21 . hi\n\
     step a23 a22 . lo a22 . hi\n\
     step a24 a23 . lo a23 . hi\n\
     step a25 a24 . lo a24 . hi\n\
     step a26 a25 . lo a25 . hi\n\
     step a27 a26 . lo a26 . hi\n\
     step a28 a27 . lo a27 . hi\n\
     step a29 a28 . lo a28 . hi\n\
     step a30 a29 . lo a29 . hi\n\
     step a31 a30 . lo a30 . hi\n\
     end\n",
    ),
];

/// The text of the objective.
const OBJECTIVE: &str = "spec objective ( list k )\n\
     down o Min 0\n\
     up p Min 0\n\
     test ( ( ( o + ( k [ i ] * v ) ) + p ) < best )\n\
     step o ( o + ( k [ i ] * v ) )\n\
     step p ( p + ( k [ i ] * v ) )\n\
     end\n";

/// Whether the first of these specifications is printed so.
fn first_is_printed(alloc: Global, bounds: &[Bound], text: &str) -> Option<bool> {
    is_printed(alloc, &bounds.first()?.spec, text.as_bytes())
}

/// Whether the first specification of a row is printed so.
fn row_is_printed(alloc: Global, row: usize, text: &str) -> Option<bool> {
    let bounds = bounds_of(alloc, row).ok()?;
    let printed = first_is_printed(alloc, bounds.as_slice(), text);
    drop(bounds);
    printed
}

/// Whether `sequence` with this window is printed so.
fn sequence_is_printed(alloc: Global, window: u16, text: &str) -> Option<bool> {
    if !(1..=32).contains(&window) {
        return None;
    }
    let bound = sequence(alloc, 4, window, 0b010, 1, 1).ok()?;
    let printed = is_printed(alloc, &bound.spec, text.as_bytes());
    drop(bound);
    printed
}

/// Whether the objective is printed so.
fn objective_is_printed(alloc: Global, text: &str) -> Option<bool> {
    let bound = objective(alloc, &[1, 1, 1, 1]).ok()?;
    let printed = is_printed(alloc, &bound.spec, text.as_bytes());
    drop(bound);
    printed
}

#[test]
fn constraints_accept_what_they_mean(rt: HostRuntime) -> Result<(), Fail> {
    for (row, (variables, line, len, lists, count)) in ROWS.iter().enumerate() {
        let text = joined(rt.alloc(), &[variables, line])?;
        let found = allowed_in(rt.alloc(), row, text.as_slice(), *len, *lists);
        assert_eq!(rt; found, Some(*count), "{line}");
    }
    Ok(())
}

#[test]
fn objectives_accept_what_costs_less(rt: HostRuntime) {
    assert_eq!(rt; cheaper_sums(rt.alloc(), 4), Some(31));
    assert_eq!(rt; cheaper_sums(rt.alloc(), 0), Some(0));
}

#[test]
fn constraints_have_their_texts(rt: HostRuntime) {
    for (row, text) in TEXTS {
        assert_eq!(rt;
            row_is_printed(rt.alloc(), *row, text),
            Some(true),
            "{text}"
        );
    }
    for (window, text) in SEQUENCES {
        let printed = sequence_is_printed(rt.alloc(), *window, text);
        assert_eq!(rt; printed, Some(true), "window {window}");
    }
    assert_eq!(rt; objective_is_printed(rt.alloc(), OBJECTIVE), Some(true));
}
