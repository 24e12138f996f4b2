//! `sum` and the objective: the sum of coefficient times value over the earlier, and over the later
//! values.
ghost use Rattle.std.specs.Prelude.{◌≡◌, ℕ, ℤ, ◌≤◌, [], ◌∷◌, length, All, codes, Ok, IfOk};
ghost use Rattle.hk_kinds.specs.Limits.{IsWithinLimit};
ghost use Rattle.hk_spec.specs.Arguments.{IsCoefficient};
ghost use Rattle.hk_spec.specs.Grades.{IsGraded};
ghost use Rattle.hk_spec.specs.Library.{interval_named, list_named, min_named, number_named, objective_bound, objective_spec, step_by, sum_bound, sum_spec, total_test, weighted};
ghost use Rattle.hk_spec.specs.Trees as tree;
ghost use Rattle.hk_spec.specs.declared.arguments.Arg.TheVariants as argument;
ghost use Rattle.hk_spec.specs.declared.parts.StepExpr.TheVariants as step;

use hk_base::{List, list_of, pair};
use hk_kinds::{Kind, Prop};
use hk_spec::{Arg, Bound, Cond, NumExpr, Param, ParamKind, PropDecl, Side, Spec, StepExpr};
use hk_trees::{
    Added, Names, Rules, below, list_of_one, list_of_three, only_step_by, param, plus, plus_both,
    property, spec_of, times, total_test, totals,
};
use std::alloc::{AllocError, Global};

/// `sum` of one value a coefficient: the sum of coefficient times value lies from the least to the
/// most. There are at most 256 coefficients, the least and the most are within the limit.
pub fn sum(alloc: Global, coefs: &[i64], least: i64, most: i64) -> Result<Bound, AllocError>
    requires few { length coefs.now ≤ 256 }
    requires coefs { All IsCoefficient coefs.now }
    requires least { IsWithinLimit least }
    requires most { IsWithinLimit most }
    ensures text { IfOk result (λ bound. bound ≡ sum_bound coefs.now least most) }
    ensures graded { IfOk result (λ bound. IsGraded bound.spec) }
{
    match pair(sum_spec(alloc), sum_args(alloc, coefs, least, most)) {
        Ok((spec, args)) => Ok(Bound::new(spec, args, coefs.len() as u16)),
        Err(refused) => Err(refused),
    }
}

/// The objective over one value a coefficient: the sum of coefficient times value is below the bound
/// on the cost. There are at most 256 coefficients.
pub fn objective(alloc: Global, coefs: &[i64]) -> Result<Bound, AllocError>
    requires few { length coefs.now ≤ 256 }
    requires coefs { All IsCoefficient coefs.now }
    ensures text { IfOk result (λ bound. bound ≡ objective_bound coefs.now) }
    ensures graded { IfOk result (λ bound. IsGraded bound.spec) }
{
    match pair(objective_spec(alloc), objective_args(alloc, coefs)) {
        Ok((spec, args)) => Ok(Bound::new(spec, args, coefs.len() as u16)),
        Err(refused) => Err(refused),
    }
}

/// The specification of `sum`.
fn sum_spec(alloc: Global) -> Result<Spec, AllocError>
    ensures { IfOk result (λ spec. spec ≡ sum_spec) }
{
    match pair(sum_names(alloc), sum_rules(alloc)) {
        Ok((names, rules)) => Ok(spec_of(names, rules)),
        Err(refused) => Err(refused),
    }
}

/// The name, the parameters and the properties.
fn sum_names(alloc: Global) -> Result<Names, AllocError>
    ensures { IfOk result (λ names. names ≡ ((codes "sum", list_named (codes "k") ∷ number_named (codes "least") ∷ number_named (codes "most") ∷ []), (interval_named (codes "s") ∷ [], interval_named (codes "u") ∷ []))) }
{
    pair(
        pair(list_of(alloc, b"sum"), sum_params(alloc)),
        totals(alloc, b"s", b"u"),
    )
}

/// The parameters of `sum`.
fn sum_params(alloc: Global) -> Result<List<Param>, AllocError>
    ensures { IfOk result (λ params. params ≡ list_named (codes "k") ∷ number_named (codes "least") ∷ number_named (codes "most") ∷ []) }
{
    let coefs = param(alloc, b"k", ParamKind::List);
    let first = pair(coefs, param(alloc, b"least", ParamKind::Num));
    match pair(first, param(alloc, b"most", ParamKind::Num)) {
        Ok(params) => list_of_three(alloc, params),
        Err(refused) => Err(refused),
    }
}

/// The arguments of `sum`.
fn sum_args(alloc: Global, coefs: &[i64], least: i64, most: i64) -> Result<List<Arg>, AllocError>
    ensures { IfOk result (λ args. args ≡ argument.Nums coefs.now ∷ argument.Num least ∷ argument.Num most ∷ []) }
{
    match list_of(alloc, coefs) {
        Ok(coefs) => list_of_three(alloc, ((Arg::Nums(coefs), Arg::Num(least)), Arg::Num(most))),
        Err(refused) => Err(refused),
    }
}

/// The test and the steps of `sum`.
fn sum_rules(alloc: Global) -> Result<Rules, AllocError>
    ensures { IfOk result (λ rules. rules ≡ (total_test weighted (tree.number_param 1) (tree.number_param 2), (step_by Side.Down weighted ∷ [], step_by Side.Up weighted ∷ []))) }
{
    pair(
        sum_test(alloc),
        pair(sum_steps(alloc, Side::Down), sum_steps(alloc, Side::Up)),
    )
}

/// The test of `sum`.
fn sum_test(alloc: Global) -> Result<Cond, AllocError>
    ensures { IfOk result (λ test. test ≡ total_test weighted (tree.number_param 1) (tree.number_param 2)) }
{
    match weighted_twice(alloc) {
        Ok(added) => total_test(alloc, added, 1, 2),
        Err(refused) => Err(refused),
    }
}

/// The step of a side of `sum`.
fn sum_steps(alloc: Global, side: Side) -> Result<List<StepExpr>, AllocError>
    ensures { IfOk result (λ steps. steps ≡ step_by side weighted ∷ []) }
{
    match weighted_twice(alloc) {
        Ok(added) => only_step_by(alloc, side, added),
        Err(refused) => Err(refused),
    }
}

/// Coefficient times value.
fn weighted(alloc: Global) -> Result<NumExpr, AllocError>
    ensures { IfOk result (λ e. e ≡ weighted) }
{
    times(alloc, NumExpr::Item(0), NumExpr::Value)
}

/// The same, twice.
fn weighted_twice(alloc: Global) -> Result<Added, AllocError>
    ensures { IfOk result (λ added. added ≡ (weighted, weighted)) }
{
    pair(weighted(alloc), weighted(alloc))
}

/// The specification of the objective.
fn objective_spec(alloc: Global) -> Result<Spec, AllocError>
    ensures { IfOk result (λ spec. spec ≡ objective_spec) }
{
    match pair(objective_names(alloc), objective_rules(alloc)) {
        Ok((names, rules)) => Ok(spec_of(names, rules)),
        Err(refused) => Err(refused),
    }
}

/// The name, the parameter and the properties.
fn objective_names(alloc: Global) -> Result<Names, AllocError>
    ensures { IfOk result (λ names. names ≡ ((codes "objective", list_named (codes "k") ∷ []), (min_named (codes "o") ∷ [], min_named (codes "p") ∷ []))) }
{
    pair(
        pair(list_of(alloc, b"objective"), objective_params(alloc)),
        pair(least_cost(alloc, b"o"), least_cost(alloc, b"p")),
    )
}

/// The parameter of the objective.
fn objective_params(alloc: Global) -> Result<List<Param>, AllocError>
    ensures { IfOk result (λ params. params ≡ list_named (codes "k") ∷ []) }
{
    match param(alloc, b"k", ParamKind::List) {
        Ok(coefs) => list_of_one(alloc, coefs),
        Err(refused) => Err(refused),
    }
}

/// The argument of the objective.
fn objective_args(alloc: Global, coefs: &[i64]) -> Result<List<Arg>, AllocError>
    ensures { IfOk result (λ args. args ≡ argument.Nums coefs.now ∷ []) }
{
    match list_of(alloc, coefs) {
        Ok(coefs) => list_of_one(alloc, Arg::Nums(coefs)),
        Err(refused) => Err(refused),
    }
}

/// The property of a side of the objective.
fn least_cost(alloc: Global, name: &[u8]) -> Result<List<PropDecl>, AllocError>
    ensures { IfOk result (λ properties. properties ≡ min_named name.now ∷ []) }
{
    match property(alloc, name, Kind::Min, Prop::Num(0)) {
        Ok(cost) => list_of_one(alloc, cost),
        Err(refused) => Err(refused),
    }
}

/// The test and the steps of the objective.
fn objective_rules(alloc: Global) -> Result<Rules, AllocError>
    ensures { IfOk result (λ rules. rules ≡ (tree.below (tree.plus (tree.plus (tree.number Side.Down 0) weighted) (tree.number Side.Up 0)) tree.best, (step.Num (tree.plus (tree.number Side.Down 0) weighted) ∷ [], step.Num (tree.plus (tree.number Side.Up 0) weighted) ∷ []))) }
{
    pair(
        objective_test(alloc),
        pair(
            objective_steps(alloc, Side::Down),
            objective_steps(alloc, Side::Up),
        ),
    )
}

/// The test of the objective: the cost is below the bound.
fn objective_test(alloc: Global) -> Result<Cond, AllocError>
    ensures { IfOk result (λ test. test ≡ tree.below (tree.plus (tree.plus (tree.number Side.Down 0) weighted) (tree.number Side.Up 0)) tree.best) }
{
    match cost(alloc) {
        Ok(cost) => below(alloc, cost, NumExpr::Best),
        Err(refused) => Err(refused),
    }
}

/// The cost of the earlier values, of this one and of the later ones.
fn cost(alloc: Global) -> Result<NumExpr, AllocError>
    ensures { IfOk result (λ e. e ≡ tree.plus (tree.plus (tree.number Side.Down 0) weighted) (tree.number Side.Up 0)) }
{
    match weighted(alloc) {
        Ok(added) => plus_both(
            alloc,
            NumExpr::Number(Side::Down, 0),
            added,
            NumExpr::Number(Side::Up, 0),
        ),
        Err(refused) => Err(refused),
    }
}

/// The step of a side of the objective.
fn objective_steps(alloc: Global, side: Side) -> Result<List<StepExpr>, AllocError>
    ensures { IfOk result (λ steps. steps ≡ step.Num (tree.plus (tree.number side 0) weighted) ∷ []) }
{
    match grown_cost(alloc, side) {
        Ok(cost) => list_of_one(alloc, StepExpr::Num(cost)),
        Err(refused) => Err(refused),
    }
}

/// The cost of a side with this value.
fn grown_cost(alloc: Global, side: Side) -> Result<NumExpr, AllocError>
    ensures { IfOk result (λ e. e ≡ tree.plus (tree.number side 0) weighted) }
{
    match weighted(alloc) {
        Ok(added) => plus(alloc, NumExpr::Number(side, 0), added),
        Err(refused) => Err(refused),
    }
}
