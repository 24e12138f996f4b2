//! `sequence`: how many earlier values are in the set, now, and one, two and more values ago, so that
//! their differences are the counts of the windows.
ghost use Rattle.std.specs.Prelude.{◌≡◌, ℕ, ℤ, pos, ◌+◌, ◌-◌, ◌<◌, ◌≤◌, [], ◌∷◌, ◌++◌, codes, Ok, IfOk, OnOk};
ghost use Rattle.hk_kinds.specs.Limits.{IsWithinLimit};
ghost use Rattle.hk_spec.specs.Grades.{IsGraded};
ghost use Rattle.hk_spec.specs.Library.{counted, counting_params, interval_named, lag_name, lags_from, sequence_bound, sequence_spec, shifts_from, step_by, window_test};
ghost use Rattle.hk_spec.specs.Trees as tree;
ghost use Rattle.hk_spec.specs.declared.parts.StepExpr.TheVariants as step;

use crate::counting::{counted, counted_twice, counting_args, counting_params};
use hk_base::{List, list_of, pair};
use hk_spec::{Bound, Cond, NumExpr, PropDecl, Side, Spec, StepExpr};
use hk_trees::{
    Names, Rules, at_most, below, both, either, interval, minus, only_step_by, plus, spec_of,
};
use std::alloc::{AllocError, Global};

/// `sequence` of `n` values: of each `window` consecutive ones, how many are in the set lies from the
/// least to the most. The window is 1 to 32, the least and the most are within the limit.
pub fn sequence(
    alloc: Global,
    n: u16,
    window: u16,
    set: u128,
    least: i64,
    most: i64,
) -> Result<Bound, AllocError>
    requires some { 1 ≤ window }
    requires few { window ≤ 32 }
    requires least { IsWithinLimit least }
    requires most { IsWithinLimit most }
    ensures text { IfOk result (λ bound. bound ≡ sequence_bound n window set least most) }
    ensures graded { IfOk result (λ bound. IsGraded bound.spec) }
{
    match pair(spec(alloc, window), counting_args(alloc, set, least, most)) {
        Ok((spec, args)) => Ok(Bound::new(spec, args, n)),
        Err(refused) => Err(refused),
    }
}

/// The specification for a window.
fn spec(alloc: Global, window: u16) -> Result<Spec, AllocError>
    requires some { 1 ≤ window }
    requires few { window ≤ 32 }
    ensures { IfOk result (λ spec. spec ≡ sequence_spec window) }
{
    match pair(names(alloc, window), rules(alloc, window - 1)) {
        Ok((names, rules)) => Ok(spec_of(names, rules)),
        Err(refused) => Err(refused),
    }
}

/// The name, the parameters and the properties.
fn names(alloc: Global, window: u16) -> Result<Names, AllocError>
    requires { window ≤ 32 }
    ensures { IfOk result (λ names. names ≡ ((codes "sequence", counting_params), (lags_from 0 window, []))) }
{
    pair(
        pair(list_of(alloc, b"sequence"), counting_params(alloc)),
        pair(lags(alloc, window), Ok(List::new(alloc))),
    )
}

/// The properties for a window.
fn lags(alloc: Global, window: u16) -> Result<List<PropDecl>, AllocError>
    requires { window ≤ 32 }
    ensures { IfOk result (λ lags. lags ≡ lags_from 0 window) }
{
    let mut lags = List::new(alloc);
    for place in 0..window {
        if let Err(refused) = push_lag(alloc, &mut lags, place) {
            drop(lags);
            return Err(refused);
        }
    }
    Ok(lags)
}

/// Puts the property of a place at the end of a list.
fn push_lag(alloc: Global, lags: &mut List<PropDecl>, place: u16) -> Result<(), AllocError>
    requires { place < 100 }
    ensures { OnOk result (lags.new ≡ lags.old ++ interval_named (lag_name place) ∷ []) }
{
    match lag(alloc, place) {
        Ok(lag) => lags.push(lag),
        Err(refused) => Err(refused),
    }
}

/// The property of a place.
fn lag(alloc: Global, place: u16) -> Result<PropDecl, AllocError>
    requires { place < 100 }
    ensures { IfOk result (λ lag. lag ≡ interval_named (lag_name place)) }
{
    let (tens, ones) = (place / 10, place % 10);
    if place < 10 {
        return interval(alloc, &[b'a', b'0' + place as u8]);
    }
    interval(alloc, &[b'a', b'0' + tens as u8, b'0' + ones as u8])
}

/// The test and the steps, for a last place.
fn rules(alloc: Global, last: u16) -> Result<Rules, AllocError>
    ensures { IfOk result (λ rules. rules ≡ (window_test last, (step_by Side.Down counted ∷ shifts_from 0 last, []))) }
{
    pair(
        window_test(alloc, last),
        pair(steps(alloc, last), Ok(List::new(alloc))),
    )
}

/// The first property counts, and each other one takes the number before it, up to a last place.
fn steps(alloc: Global, last: u16) -> Result<List<StepExpr>, AllocError>
    ensures { IfOk result (λ steps. steps ≡ step_by Side.Down counted ∷ shifts_from 0 last) }
{
    let mut steps = counting_step(alloc)?;
    for place in 0..last {
        if let Err(refused) = steps.push(shift(place)) {
            drop(steps);
            return Err(refused);
        }
    }
    Ok(steps)
}

/// The step that takes the number of a place.
fn shift(place: u16) -> StepExpr
    ensures { result ≡ step.Pair (tree.low Side.Down place) (tree.high Side.Down place) }
{
    StepExpr::Pair(
        NumExpr::Low(Side::Down, place),
        NumExpr::High(Side::Down, place),
    )
}

/// The step of the first property, in a list.
fn counting_step(alloc: Global) -> Result<List<StepExpr>, AllocError>
    ensures { IfOk result (λ steps. steps ≡ step_by Side.Down counted ∷ []) }
{
    match counted_twice(alloc) {
        Ok(added) => only_step_by(alloc, Side::Down, added),
        Err(refused) => Err(refused),
    }
}

/// The test: the window that ends here isn't whole, or its count lies within the bounds.
fn window_test(alloc: Global, last: u16) -> Result<Cond, AllocError>
    ensures { IfOk result (λ test. test ≡ window_test last) }
{
    let early = below(alloc, NumExpr::Index, NumExpr::Lit(i64::from(last)));
    match pair(early, window_lies_within(alloc, last)) {
        Ok((early, within)) => either(alloc, early, within),
        Err(refused) => Err(refused),
    }
}

/// The count of the window that ends here lies within the bounds.
fn window_lies_within(alloc: Global, last: u16) -> Result<Cond, AllocError>
    ensures { IfOk result (λ test. test ≡ tree.both
        (tree.at_most (tree.minus (tree.plus (tree.low Side.Down 0) counted) (tree.high Side.Down last)) (tree.number_param 1))
        (tree.at_most (tree.number_param 0) (tree.minus (tree.plus (tree.high Side.Down 0) counted) (tree.low Side.Down last)))) }
{
    match pair(is_at_most(alloc, last), is_at_least(alloc, last)) {
        Ok((upper, lower)) => both(alloc, upper, lower),
        Err(refused) => Err(refused),
    }
}

/// The least count of the window is at most the greatest that is allowed.
fn is_at_most(alloc: Global, last: u16) -> Result<Cond, AllocError>
    ensures { IfOk result (λ test. test ≡ tree.at_most (tree.minus (tree.plus (tree.low Side.Down 0) counted) (tree.high Side.Down last)) (tree.number_param 1)) }
{
    let before = NumExpr::High(Side::Down, last);
    match window_count(alloc, NumExpr::Low(Side::Down, 0), before) {
        Ok(count) => at_most(alloc, count, NumExpr::Param(1)),
        Err(refused) => Err(refused),
    }
}

/// The greatest count of the window is at least the least that is allowed.
fn is_at_least(alloc: Global, last: u16) -> Result<Cond, AllocError>
    ensures { IfOk result (λ test. test ≡ tree.at_most (tree.number_param 0) (tree.minus (tree.plus (tree.high Side.Down 0) counted) (tree.low Side.Down last))) }
{
    let before = NumExpr::Low(Side::Down, last);
    match window_count(alloc, NumExpr::High(Side::Down, 0), before) {
        Ok(count) => at_most(alloc, NumExpr::Param(0), count),
        Err(refused) => Err(refused),
    }
}

/// The count of the window: that of all values up to this one, less that of those before the window.
fn window_count(alloc: Global, earlier: NumExpr, before: NumExpr) -> Result<NumExpr, AllocError>
    ensures { IfOk result (λ e. e ≡ tree.minus (tree.plus earlier counted) before) }
{
    match with_this(alloc, earlier) {
        Ok(count) => minus(alloc, count, before),
        Err(refused) => {
            drop(before);
            Err(refused)
        }
    }
}

/// The count of the earlier values, and of this one.
fn with_this(alloc: Global, earlier: NumExpr) -> Result<NumExpr, AllocError>
    ensures { IfOk result (λ e. e ≡ tree.plus earlier counted) }
{
    match counted(alloc) {
        Ok(counted) => plus(alloc, earlier, counted),
        Err(refused) => {
            drop(earlier);
            Err(refused)
        }
    }
}
