//! Answers: the first solution of least cost or that there is none, as it is printed, and of the
//! least and the greatest number of variables.

use crate::models::{PAIR, WORTH, spelled};
use crate::texts::numbered;
use hk_base::List;
use hk_group::Problem;
use hk_search::{Found, answer_text, search_plain};
use std::alloc::Global;

/// Two variables of which one is 1, where each costs 1.
const EQUAL: &str =
    "hkm 1\nvar x in 0..1\nvar y in 0..1\nsum (1*x, 1*y) 1..1\nminimize (1*x, 1*y)\n";

/// Three variables of two values.
const THREE: &str = "hkm 1\nvar x in 0..1\nvar y in 0..1\nvar z in 0..1\nalldifferent (x, y, z)\n";

/// Whether what was found has this text.
fn is_printed(
    alloc: Global,
    problem: &Problem,
    found: &Option<Found>,
    text: &[u8],
) -> Option<bool> {
    let mut printed = List::new(alloc);
    answer_text(problem, found, &mut printed).ok()?;
    Some(printed.as_slice() == text)
}

/// Whether the answer of a problem has this text.
fn is_found(alloc: Global, problem: &Problem, text: &[u8]) -> Option<bool> {
    let found = search_plain(alloc, problem).ok()?;
    let printed = is_printed(alloc, problem, &found, text);
    drop(found);
    printed
}

/// Whether the answer of the problem that a model spells has this text.
fn is_answer(alloc: Global, model: &[u8], text: &[u8]) -> Option<bool> {
    let problem = spelled(alloc, model)?;
    let found = is_found(alloc, &problem, text);
    drop(problem);
    found
}

/// Whether the answer of a model is that each of so many variables is 0.
fn are_zeros(alloc: Global, model: &[u8], count: u16) -> Option<bool> {
    let text = numbered(alloc, b"solution\n", b"x", b" 0\n", count).ok()?;
    is_answer(alloc, model, text.as_slice())
}

/// Whether so many variables that no constraint binds are answered by zeros.
fn free_are_zeros(alloc: Global, count: u16) -> Option<bool> {
    let model = numbered(alloc, b"hkm 1\n", b"var x", b" in 0..1\n", count).ok()?;
    are_zeros(alloc, model.as_slice(), count)
}

#[test]
fn answers_are_the_first_of_least_cost(rt: HostRuntime) {
    let rows = [
        (PAIR, "solution\nx 0\ny 1\n"),
        (THREE, "infeasible\n"),
        (EQUAL, "optimal 1\nx 0\ny 1\n"),
        (WORTH, "optimal -1\nx 1\ny 0\n"),
    ];
    for (model, text) in rows {
        let answered = is_answer(rt.alloc(), model.as_bytes(), text.as_bytes());
        assert_eq!(rt; answered, Some(true), "{model}");
    }
}

#[test]
fn free_variables_are_zeros(rt: HostRuntime) {
    for count in [0, 1, 256] {
        let answered = free_are_zeros(rt.alloc(), count);
        assert_eq!(rt; answered, Some(true), "{count} variables");
    }
}
