//! Totals over the earlier and over the later positions, each an interval: the steps and the test of
//! the constraints that bound a total. What a position adds stands twice in each, as two equal trees.
ghost use Rattle.std.specs.Prelude.{◌≡◌, [], ◌∷◌, Ok, IfOk};
ghost use Rattle.hk_spec.specs.Library.{interval_named};
ghost use Rattle.hk_spec.specs.Trees as tree;
ghost use Rattle.hk_spec.specs.declared.parts.StepExpr.TheVariants as step;

use crate::lists::list_of_one;
use crate::specifications::interval;
use crate::trees::{at_most, both, plus, plus_both};
use hk_base::{List, pair};
use hk_spec::{Cond, NumExpr, PropDecl, Side, StepExpr};
use std::alloc::{AllocError, Global};

/// What a position adds, twice.
pub type Added = (NumExpr, NumExpr);

/// The property of each side.
pub fn totals(
    alloc: Global,
    down: &[u8],
    up: &[u8],
) -> Result<(List<PropDecl>, List<PropDecl>), AllocError>
    ensures { IfOk result (λ properties. properties ≡ (interval_named down.now ∷ [], interval_named up.now ∷ [])) }
{
    pair(total(alloc, down), total(alloc, up))
}

/// The property of one side.
fn total(alloc: Global, name: &[u8]) -> Result<List<PropDecl>, AllocError>
    ensures { IfOk result (λ properties. properties ≡ interval_named name.now ∷ []) }
{
    match interval(alloc, name) {
        Ok(property) => list_of_one(alloc, property),
        Err(refused) => Err(refused),
    }
}

/// The step of the first property of a side: it grows by what the position adds.
pub fn step_by(alloc: Global, side: Side, added: Added) -> Result<StepExpr, AllocError>
    ensures { IfOk result (λ grown. grown ≡ step.Pair (tree.plus (tree.low side 0) added.0) (tree.plus (tree.high side 0) added.1)) }
{
    let (first, second) = added;
    let low = plus(alloc, NumExpr::Low(side, 0), first);
    match pair(low, plus(alloc, NumExpr::High(side, 0), second)) {
        Ok((low, high)) => Ok(StepExpr::Pair(low, high)),
        Err(refused) => Err(refused),
    }
}

/// It as the only step of a side.
pub fn only_step_by(alloc: Global, side: Side, added: Added) -> Result<List<StepExpr>, AllocError>
    ensures { IfOk result (λ steps. steps ≡ step.Pair (tree.plus (tree.low side 0) added.0) (tree.plus (tree.high side 0) added.1) ∷ []) }
{
    match step_by(alloc, side, added) {
        Ok(step) => list_of_one(alloc, step),
        Err(refused) => Err(refused),
    }
}

/// The test that the whole total may lie within the bounds, which are the parameters at two places.
pub fn total_test(alloc: Global, added: Added, least: u16, most: u16) -> Result<Cond, AllocError>
    ensures { IfOk result (λ test. test ≡ tree.both
        (tree.at_most (tree.plus (tree.plus (tree.low Side.Down 0) added.0) (tree.low Side.Up 0)) (tree.number_param most))
        (tree.at_most (tree.number_param least) (tree.plus (tree.plus (tree.high Side.Down 0) added.1) (tree.high Side.Up 0)))) }
{
    let (first, second) = added;
    match pair(
        is_at_most(alloc, first, most),
        is_at_least(alloc, second, least),
    ) {
        Ok((upper, lower)) => both(alloc, upper, lower),
        Err(refused) => Err(refused),
    }
}

/// The least total is at most the greatest that is allowed.
fn is_at_most(alloc: Global, added: NumExpr, most: u16) -> Result<Cond, AllocError>
    ensures { IfOk result (λ test. test ≡ tree.at_most (tree.plus (tree.plus (tree.low Side.Down 0) added) (tree.low Side.Up 0)) (tree.number_param most)) }
{
    let total = plus_both(
        alloc,
        NumExpr::Low(Side::Down, 0),
        added,
        NumExpr::Low(Side::Up, 0),
    );
    match total {
        Ok(total) => at_most(alloc, total, NumExpr::Param(most)),
        Err(refused) => Err(refused),
    }
}

/// The greatest total is at least the least that is allowed.
fn is_at_least(alloc: Global, added: NumExpr, least: u16) -> Result<Cond, AllocError>
    ensures { IfOk result (λ test. test ≡ tree.at_most (tree.number_param least) (tree.plus (tree.plus (tree.high Side.Down 0) added) (tree.high Side.Up 0))) }
{
    let total = plus_both(
        alloc,
        NumExpr::High(Side::Down, 0),
        added,
        NumExpr::High(Side::Up, 0),
    );
    match total {
        Ok(total) => at_most(alloc, NumExpr::Param(least), total),
        Err(refused) => Err(refused),
    }
}
