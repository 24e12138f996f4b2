//! `alldifferent`: the values that some, and that all of the earlier lists hold, and the same of the
//! later ones.
ghost use Rattle.std.specs.Prelude.{◌≡◌, ℤ, pos, [], ◌∷◌, codes, Ok, IfOk};
ghost use Rattle.hk_spec.specs.Grades.{IsGraded};
ghost use Rattle.hk_spec.specs.Library.{alldifferent_bound, alldifferent_spec, all_named, differing_test, some_named, with_value};
ghost use Rattle.hk_spec.specs.Trees as tree;
ghost use Rattle.hk_spec.specs.declared.parts.StepExpr.TheVariants as step;

use hk_base::{List, list_of, pair};
use hk_kinds::{Kind, Prop};
use hk_spec::{Bound, Cond, NumExpr, PropDecl, SetExpr, Side, Spec, StepExpr};
use hk_trees::{
    Names, Rules, at_least, both, card, lacks, list_of_two, minus, plus, property, spec_of, union,
};
use std::alloc::{AllocError, Global};

/// `alldifferent` of `n` values: no two of them are equal.
pub fn alldifferent(alloc: Global, n: u16) -> Result<Bound, AllocError>
    ensures text { IfOk result (λ bound. bound ≡ alldifferent_bound n) }
    ensures graded { IfOk result (λ bound. IsGraded bound.spec) }
{
    match spec(alloc) {
        Ok(spec) => Ok(Bound::new(spec, List::new(alloc), n)),
        Err(refused) => Err(refused),
    }
}

/// The specification.
fn spec(alloc: Global) -> Result<Spec, AllocError>
    ensures { IfOk result (λ spec. spec ≡ alldifferent_spec) }
{
    match pair(names(alloc), rules(alloc)) {
        Ok((names, rules)) => Ok(spec_of(names, rules)),
        Err(refused) => Err(refused),
    }
}

/// The name, no parameter, and the properties.
fn names(alloc: Global) -> Result<Names, AllocError>
    ensures { IfOk result (λ names. names ≡ ((codes "alldifferent", []), (some_named (codes "some") ∷ all_named (codes "all") ∷ [], some_named (codes "usome") ∷ all_named (codes "uall") ∷ []))) }
{
    let properties = pair(held(alloc, b"some", b"all"), held(alloc, b"usome", b"uall"));
    pair(
        pair(list_of(alloc, b"alldifferent"), Ok(List::new(alloc))),
        properties,
    )
}

/// The properties of one side: what some lists hold, and what all hold.
fn held(alloc: Global, some: &[u8], all: &[u8]) -> Result<List<PropDecl>, AllocError>
    ensures { IfOk result (λ properties. properties ≡ some_named some.now ∷ all_named all.now ∷ []) }
{
    let some = property(alloc, some, Kind::SomeBits, Prop::Bits(0));
    match pair(some, property(alloc, all, Kind::AllBits, Prop::Bits(0))) {
        Ok(properties) => list_of_two(alloc, properties),
        Err(refused) => Err(refused),
    }
}

/// The test and the steps.
fn rules(alloc: Global) -> Result<Rules, AllocError>
    ensures { IfOk result (λ rules. rules ≡ (differing_test, (step.Set (with_value (tree.bits Side.Down 0)) ∷ step.Set (with_value (tree.bits Side.Down 1)) ∷ [], step.Set (with_value (tree.bits Side.Up 0)) ∷ step.Set (with_value (tree.bits Side.Up 1)) ∷ []))) }
{
    pair(
        test(alloc),
        pair(steps(alloc, Side::Down), steps(alloc, Side::Up)),
    )
}

/// Each property of a side takes the value in.
fn steps(alloc: Global, side: Side) -> Result<List<StepExpr>, AllocError>
    ensures { IfOk result (λ steps. steps ≡ step.Set (with_value (tree.bits side 0)) ∷ step.Set (with_value (tree.bits side 1)) ∷ []) }
{
    match pair(with_value(alloc, side, 0), with_value(alloc, side, 1)) {
        Ok((some, all)) => list_of_two(alloc, (StepExpr::Set(some), StepExpr::Set(all))),
        Err(refused) => Err(refused),
    }
}

/// The set at a place of a side, and the value.
fn with_value(alloc: Global, side: Side, place: u16) -> Result<SetExpr, AllocError>
    ensures { IfOk result (λ set. set ≡ with_value (tree.bits side place)) }
{
    union(alloc, SetExpr::Bits(side, place), SetExpr::One)
}

/// The test.
fn test(alloc: Global) -> Result<Cond, AllocError>
    ensures { IfOk result (λ test. test ≡ differing_test) }
{
    match pair(value_is_new(alloc), values_suffice(alloc)) {
        Ok((new, suffice)) => both(alloc, new, suffice),
        Err(refused) => Err(refused),
    }
}

/// No list that all earlier, or that all later positions have gone through holds the value.
fn value_is_new(alloc: Global) -> Result<Cond, AllocError>
    ensures { IfOk result (λ p. p ≡ tree.both (tree.lacks (tree.bits Side.Down 1)) (tree.lacks (tree.bits Side.Up 1))) }
{
    let earlier = lacks(alloc, SetExpr::Bits(Side::Down, 1));
    match pair(earlier, lacks(alloc, SetExpr::Bits(Side::Up, 1))) {
        Ok((earlier, later)) => both(alloc, earlier, later),
        Err(refused) => Err(refused),
    }
}

/// On each side there are at least as many values as positions, with the value and its position.
fn values_suffice(alloc: Global) -> Result<Cond, AllocError>
    ensures { IfOk result (λ p. p ≡ tree.both
        (tree.at_least (tree.card (with_value (tree.bits Side.Down 0))) (tree.plus tree.index (tree.literal (pos 1))))
        (tree.at_least (tree.card (with_value (tree.bits Side.Up 0))) (tree.minus tree.positions tree.index))) }
{
    match pair(earlier_suffice(alloc), later_suffice(alloc)) {
        Ok((earlier, later)) => both(alloc, earlier, later),
        Err(refused) => Err(refused),
    }
}

/// The earlier positions and this one hold at least as many values as they are.
fn earlier_suffice(alloc: Global) -> Result<Cond, AllocError>
    ensures { IfOk result (λ p. p ≡ tree.at_least (tree.card (with_value (tree.bits Side.Down 0))) (tree.plus tree.index (tree.literal (pos 1)))) }
{
    match plus(alloc, NumExpr::Index, NumExpr::Lit(1)) {
        Ok(count) => holds_as_many(alloc, Side::Down, count),
        Err(refused) => Err(refused),
    }
}

/// This position and the later ones hold at least as many values as they are.
fn later_suffice(alloc: Global) -> Result<Cond, AllocError>
    ensures { IfOk result (λ p. p ≡ tree.at_least (tree.card (with_value (tree.bits Side.Up 0))) (tree.minus tree.positions tree.index)) }
{
    match minus(alloc, NumExpr::Length, NumExpr::Index) {
        Ok(count) => holds_as_many(alloc, Side::Up, count),
        Err(refused) => Err(refused),
    }
}

/// The first set of a side has, with the value, at least so many values.
fn holds_as_many(alloc: Global, side: Side, count: NumExpr) -> Result<Cond, AllocError>
    ensures { IfOk result (λ p. p ≡ tree.at_least (tree.card (with_value (tree.bits side 0))) count) }
{
    match held_count(alloc, side) {
        Ok(held) => at_least(alloc, held, count),
        Err(refused) => {
            drop(count);
            Err(refused)
        }
    }
}

/// How many values the first set of a side has, with the value.
fn held_count(alloc: Global, side: Side) -> Result<NumExpr, AllocError>
    ensures { IfOk result (λ e. e ≡ tree.card (with_value (tree.bits side 0))) }
{
    match with_value(alloc, side, 0) {
        Ok(set) => card(alloc, set),
        Err(refused) => Err(refused),
    }
}
