//! The parts that groups are composed of, as tests write them out.

ghost use Rattle.std.specs.Prelude.{◌≡◌, ◌<◌, ◌≤◌, [], length, All, IsTrue};
ghost use Rattle.hk_kinds.specs.Limits.{IsWithinLimit};
ghost use Rattle.hk_spec.specs.Arguments.{IsCoefficient};

use hk_base::{LIM, List};
use hk_lib::{alldifferent, among, gcc, objective, sequence, sum};
use hk_parse::read_spec;
use hk_spec::{Bound, Bounds, Spec};
use hk_trees::list_of_one;
use std::alloc::{AllocError, Global};

/// What is asked of the values of a scope.
#[derive(Clone, Copy)]
pub enum Rule {
    AllDifferent,
    /// Of a set of values, the least and the most.
    Among(u128, i16, i16),
    /// The same of each window.
    Sequence(u16, u128, i16, i16),
    Gcc(&'static [(u8, i64, i64)]),
    /// Coefficients, the least and the most.
    Sum(&'static [i64], i16, i16),
    Objective(&'static [i64]),
    /// A specification without parameters that a text writes.
    Written(&'static str),
}

/// A rule and the variables that it is about.
#[derive(Clone, Copy)]
pub struct Part {
    pub rule: Rule,
    pub scope: &'static [u16],
}

/// Whether a coefficient is within the limits.
fn is_coefficient(coef: i64) -> bool
    ensures { IsTrue result → IsCoefficient coef }
{
    -1_000_000 < coef && coef < 1_000_000
}

/// Whether there are few coefficients, each within the limits.
fn are_coefficients(coefs: &[i64]) -> bool
    ensures few { IsTrue result → length coefs.now ≤ 256 }
    ensures all { IsTrue result → All IsCoefficient coefs.now }
{
    coefs.len() <= 256 && coefs.iter().all(|coef| is_coefficient(*coef))
}

/// Whether a number is within the limit.
fn is_within(n: i64) -> bool
    ensures { IsTrue result → IsWithinLimit n }
{
    -LIM <= n && n <= LIM
}

/// Whether the rows of `gcc` are within the limits.
fn are_rows(rows: &[(u8, i64, i64)]) -> bool
    ensures values { IsTrue result → All (λ row. row.0 < 128) rows.now }
    ensures least { IsTrue result → All (λ row. IsWithinLimit row.1) rows.now }
    ensures most { IsTrue result → All (λ row. IsWithinLimit row.2) rows.now }
{
    rows.iter().all(|row| row.0 < 128)
        && rows.iter().all(|row| is_within(row.1))
        && rows.iter().all(|row| is_within(row.2))
}

/// A specification without parameters for so many values.
fn without_parameters(alloc: Global, spec: Spec, len: u16) -> Option<Bound> {
    let [] = spec.params.as_slice() else {
        drop(spec);
        return None;
    };
    Some(Bound::new(spec, List::new(alloc), len))
}

/// The specification that a text writes, for so many values.
fn written(alloc: Global, text: &[u8], len: u16) -> Option<Bound> {
    if text.len() > 1_048_576 {
        return None;
    }
    match read_spec(alloc, text) {
        Ok(spec) => without_parameters(alloc, spec, len),
        Err(_) => None,
    }
}

/// The specification that is summed up, for so many values as there are coefficients.
fn summed(alloc: Global, rule: Rule) -> Option<Bound> {
    match rule {
        Rule::Sum(coefs, least, most) if are_coefficients(coefs) => {
            sum(alloc, coefs, i64::from(least), i64::from(most)).ok()
        }
        Rule::Objective(coefs) if are_coefficients(coefs) => objective(alloc, coefs).ok(),
        _ => None,
    }
}

/// The specification of a window.
fn windowed(
    alloc: Global,
    len: u16,
    window: u16,
    set: u128,
    least: i16,
    most: i16,
) -> Option<Bound> {
    if window == 0 || window > 32 {
        return None;
    }
    sequence(alloc, len, window, set, i64::from(least), i64::from(most)).ok()
}

/// The one specification of a rule that has one, for so many values.
fn bound_of(alloc: Global, rule: Rule, len: u16) -> Option<Bound> {
    match rule {
        Rule::AllDifferent => alldifferent(alloc, len).ok(),
        Rule::Among(set, least, most) => {
            among(alloc, len, set, i64::from(least), i64::from(most)).ok()
        }
        Rule::Sequence(window, set, least, most) => windowed(alloc, len, window, set, least, most),
        Rule::Sum(_, _, _) | Rule::Objective(_) => summed(alloc, rule),
        Rule::Written(text) => written(alloc, text.as_bytes(), len),
        Rule::Gcc(_) => None,
    }
}

/// The specifications of a rule, for so many values.
pub fn bounds_of(alloc: Global, rule: Rule, len: u16) -> Option<Bounds> {
    if let Rule::Gcc(rows) = rule {
        if are_rows(rows) {
            return gcc(alloc, len, rows).ok();
        }
        return None;
    }
    match bound_of(alloc, rule, len) {
        Some(bound) => list_of_one(alloc, bound).ok(),
        None => None,
    }
}
