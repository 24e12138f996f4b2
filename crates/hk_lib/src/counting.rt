//! `among`, and `gcc` as one `among` a row: how many earlier, and how many later values are in the set.
ghost use Rattle.std.specs.Prelude.{◌≡◌, ℕ, ℤ, pos, ◌<◌, ◌^◌, [], ◌∷◌, ◌++◌, All, codes, Ok, IfOk, OnOk};
ghost use Rattle.hk_kinds.specs.Limits.{IsWithinLimit};
ghost use Rattle.hk_spec.specs.Grades.{IsGraded};
ghost use Rattle.hk_spec.specs.Library.{among_bound, among_spec, counted, counting_params, gcc_bound, gcc_bounds, interval_named, step_by, total_test};
ghost use Rattle.hk_spec.specs.Specifications.{BoundSpecification};
ghost use Rattle.hk_spec.specs.Trees as tree;
ghost use Rattle.hk_spec.specs.declared.arguments.Arg.TheVariants as argument;

use hk_base::{List, list_of, pair};
use hk_spec::{Arg, Bound, Bounds, Cond, NumExpr, Param, ParamKind, SetExpr, Side, Spec, StepExpr};
use hk_trees::{
    Added, Names, Rules, card, common, list_of_three, only_step_by, param, spec_of, total_test,
    totals,
};
use std::alloc::{AllocError, Global};

/// `among` of `n` values: how many of them are in the set lies from the least to the most, each of
/// which is within the limit.
pub fn among(alloc: Global, n: u16, set: u128, least: i64, most: i64) -> Result<Bound, AllocError>
    requires least { IsWithinLimit least }
    requires most { IsWithinLimit most }
    ensures text { IfOk result (λ bound. bound ≡ among_bound n set least most) }
    ensures graded { IfOk result (λ bound. IsGraded bound.spec) }
{
    match pair(spec(alloc), counting_args(alloc, set, least, most)) {
        Ok((spec, args)) => Ok(Bound::new(spec, args, n)),
        Err(refused) => Err(refused),
    }
}

/// `gcc` of `n` values: for each row, a value below 128 with a least and a most within the limit, how
/// often the value occurs lies from the least to the most. One `among` a row.
pub fn gcc(alloc: Global, n: u16, rows: &[(u8, i64, i64)]) -> Result<Bounds, AllocError>
    requires values { All (λ row. row.0 < 128) rows.now }
    requires least { All (λ row. IsWithinLimit row.1) rows.now }
    requires most { All (λ row. IsWithinLimit row.2) rows.now }
    ensures text { IfOk result (λ bounds. bounds ≡ gcc_bounds n rows.now) }
    ensures graded { IfOk result (λ bounds. All (λ (bound : BoundSpecification). IsGraded bound.spec) bounds) }
{
    let mut bounds = List::new(alloc);
    for row in rows {
        if let Err(refused) = push_row(alloc, &mut bounds, n, *row) {
            drop(bounds);
            return Err(refused);
        }
    }
    Ok(bounds)
}

/// Puts the `among` of a row at the end of a list.
fn push_row(
    alloc: Global,
    bounds: &mut Bounds,
    n: u16,
    row: (u8, i64, i64),
) -> Result<(), AllocError>
    requires value { row.0 < 128 }
    requires least { IsWithinLimit row.1 }
    requires most { IsWithinLimit row.2 }
    ensures { OnOk result (bounds.new ≡ bounds.old ++ gcc_bound n row ∷ []) }
{
    match among(alloc, n, set_of_one(row.0), row.1, row.2) {
        Ok(bound) => bounds.push(bound),
        Err(refused) => Err(refused),
    }
}

/// The set of one value.
fn set_of_one(value: u8) -> u128
    requires { value < 128 }
    ensures { result ≡ 2 ^ value }
{
    1u128 << value
}

/// The specification of `among`.
fn spec(alloc: Global) -> Result<Spec, AllocError>
    ensures { IfOk result (λ spec. spec ≡ among_spec) }
{
    match pair(names(alloc), rules(alloc)) {
        Ok((names, rules)) => Ok(spec_of(names, rules)),
        Err(refused) => Err(refused),
    }
}

/// The name, the parameters and the properties.
fn names(alloc: Global) -> Result<Names, AllocError>
    ensures { IfOk result (λ names. names ≡ ((codes "among", counting_params), (interval_named (codes "c") ∷ [], interval_named (codes "u") ∷ []))) }
{
    pair(
        pair(list_of(alloc, b"among"), counting_params(alloc)),
        totals(alloc, b"c", b"u"),
    )
}

/// The test and the steps.
fn rules(alloc: Global) -> Result<Rules, AllocError>
    ensures { IfOk result (λ rules. rules ≡ (total_test counted (tree.number_param 0) (tree.number_param 1), (step_by Side.Down counted ∷ [], step_by Side.Up counted ∷ []))) }
{
    pair(
        test(alloc),
        pair(steps(alloc, Side::Down), steps(alloc, Side::Up)),
    )
}

/// The test.
fn test(alloc: Global) -> Result<Cond, AllocError>
    ensures { IfOk result (λ test. test ≡ total_test counted (tree.number_param 0) (tree.number_param 1)) }
{
    match counted_twice(alloc) {
        Ok(added) => total_test(alloc, added, 0, 1),
        Err(refused) => Err(refused),
    }
}

/// The step of a side.
fn steps(alloc: Global, side: Side) -> Result<List<StepExpr>, AllocError>
    ensures { IfOk result (λ steps. steps ≡ step_by side counted ∷ []) }
{
    match counted_twice(alloc) {
        Ok(added) => only_step_by(alloc, side, added),
        Err(refused) => Err(refused),
    }
}

/// 1 where the value is in the set, else 0.
pub fn counted(alloc: Global) -> Result<NumExpr, AllocError>
    ensures { IfOk result (λ e. e ≡ counted) }
{
    match common(alloc, SetExpr::One, SetExpr::Param(2)) {
        Ok(set) => card(alloc, set),
        Err(refused) => Err(refused),
    }
}

/// The same, twice.
pub fn counted_twice(alloc: Global) -> Result<Added, AllocError>
    ensures { IfOk result (λ added. added ≡ (counted, counted)) }
{
    pair(counted(alloc), counted(alloc))
}

/// The parameters: the least, the most and the set.
pub fn counting_params(alloc: Global) -> Result<List<Param>, AllocError>
    ensures { IfOk result (λ params. params ≡ counting_params) }
{
    let least = param(alloc, b"least", ParamKind::Num);
    let bounds = pair(least, param(alloc, b"most", ParamKind::Num));
    match pair(bounds, param(alloc, b"vals", ParamKind::Set)) {
        Ok(params) => list_of_three(alloc, params),
        Err(refused) => Err(refused),
    }
}

/// The arguments for them.
pub fn counting_args(
    alloc: Global,
    set: u128,
    least: i64,
    most: i64,
) -> Result<List<Arg>, AllocError>
    ensures { IfOk result (λ args. args ≡ argument.Num least ∷ argument.Num most ∷ argument.Set set ∷ []) }
{
    list_of_three(alloc, ((Arg::Num(least), Arg::Num(most)), Arg::Set(set)))
}
