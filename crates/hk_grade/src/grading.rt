//! Specifications that are graded.
ghost use Rattle.std.specs.Prelude.{◌≡◌, ℕ, ◌<◌, ◌≤◌, length, None, Some, IsNone, IfSome, IfOk, IfErr};
ghost use Rattle.hk_spec.specs.Grades.{IsGraded, IsFirstWrong, kinds_in, wrong_sense, wrong_step_at};
ghost use Rattle.hk_spec.specs.Specifications.{kinds_of_properties};
ghost use Rattle.hk_grade.specs.GradeErrors.{IsErrorOf};

use crate::errors::{GradeError, GradeFault};
use crate::judging::{wrong_step, wrong_test};
use crate::properties::Properties;
use hk_spec::{Place, PropDecl, Sense, Spec, StepExpr};
use std::alloc::Global;
use std::marker::Model;

/// A graded specification: each of its places has an allowed sense. Only `grade` makes one.
#[derive(Debug, Drop)]
pub struct Graded {
    spec: Spec,
}

impl Model for Graded {
    ghost use Rattle.std.specs.Coded.{codes};
    ghost use Rattle.hk_spec.specs.contracts.specification.Spec as specification;
    ghost use Rattle.hk_spec.specs.Grades.{IsGraded};
    ghost use Rattle.hk_spec.specs.Specifications.{Specification};

    ghost Value = { Specification };

    ghost coded = { Prim.hlevel (codes, specification.the_row.coded) };

    ghost view = { λ g. g.spec };

    ghost invariant = { λ g. IsGraded g.spec };
}

impl Graded {
    /// The specification.
    pub fn spec(&self) -> &Spec
        ensures spec { result.now ≡ self.now }
        ensures graded { IsGraded self.now }
    {
        &self.spec
    }

    /// The specification, let go of.
    pub fn into_spec(self) -> Spec
        ensures spec { result ≡ self }
        ensures graded { IsGraded result }
    {
        let Graded { spec } = self;
        spec
    }
}

/// A copy of a specification, whose type keeps that each of its places has an allowed sense. The
/// fault names the first place that has none. The senses and what is allowed are the tables of
/// docs/language.md. Judging takes no memory: where memory is wanting, the specification is graded.
pub fn grade(alloc: Global, spec: &Spec) -> Result<Graded, GradeError>
    ensures copy { IfOk result (λ graded. graded ≡ spec.now) }
    ensures graded { IfOk result (λ _. IsGraded spec.now) }
    ensures error { IfErr result (IsErrorOf spec.now) }
{
    if let Some(fault) = first_wrong(spec) {
        return Err(GradeError::Fault(fault));
    }
    match spec.copy(alloc) {
        Ok(spec) => Ok(Graded { spec }),
        Err(_) => Err(GradeError::Memory),
    }
}

/// The first place of a specification whose sense isn't allowed there.
fn first_wrong(spec: &Spec) -> Option<GradeFault>
    ensures some { IfSome result (λ fault. IsFirstWrong spec.now fault.place fault.found) }
    ensures none { IsNone result → IsGraded spec.now }
{
    if let Some(found) = wrong_test_in(spec) {
        let place = Place::Test;
        return Some(GradeFault { place, found });
    }
    if let Some((at, found)) = wrong_down_in(spec) {
        let place = Place::Down(at);
        return Some(GradeFault { place, found });
    }
    if let Some((at, found)) = wrong_up_in(spec) {
        let place = Place::Up(at);
        return Some(GradeFault { place, found });
    }
    None
}

/// The sense of a specification's test, where it isn't allowed.
fn wrong_test_in(spec: &Spec) -> Option<Sense>
    ensures { result ≡ wrong_sense spec.now Place.Test }
{
    wrong_test(&spec.test, &properties_of(spec))
}

/// The first down step of a specification whose sense isn't allowed, and that sense.
fn wrong_down_in(spec: &Spec) -> Option<(u16, Sense)>
    ensures here { IfSome result (λ wrong. wrong_sense spec.now (Place.Down wrong.0) ≡ Some wrong.1) }
    ensures first { IfSome result (λ wrong. (k : ℕ) → k < wrong.0 → wrong_sense spec.now (Place.Down k) ≡ None) }
    ensures none { IsNone result → (k : ℕ) → wrong_sense spec.now (Place.Down k) ≡ None }
{
    let steps = spec.down_step.as_slice();
    wrong_step_in(spec.down.as_slice(), steps, &properties_of(spec))
}

/// The same of the up steps.
fn wrong_up_in(spec: &Spec) -> Option<(u16, Sense)>
    ensures here { IfSome result (λ wrong. wrong_sense spec.now (Place.Up wrong.0) ≡ Some wrong.1) }
    ensures first { IfSome result (λ wrong. (k : ℕ) → k < wrong.0 → wrong_sense spec.now (Place.Up k) ≡ None) }
    ensures none { IsNone result → (k : ℕ) → wrong_sense spec.now (Place.Up k) ≡ None }
{
    let steps = spec.up_step.as_slice();
    wrong_step_in(spec.up.as_slice(), steps, &properties_of(spec))
}

/// The properties of a specification.
fn properties_of(spec: &Spec) -> Properties<'_>
    ensures { result ≡ kinds_in spec.now }
{
    Properties {
        down: spec.down.as_slice(),
        up: spec.up.as_slice(),
    }
}

/// The place of the first step of a side whose sense isn't allowed, and that sense.
fn wrong_step_in(
    properties: &[PropDecl],
    steps: &[StepExpr],
    of: &Properties<'_>,
) -> Option<(u16, Sense)>
    requires { length properties.now ≤ 32 }
    ensures here { IfSome result (λ wrong. wrong_step_at of.now (kinds_of_properties properties.now) steps.now wrong.0 ≡ Some wrong.1) }
    ensures first { IfSome result (λ wrong. (k : ℕ) → k < wrong.0 → wrong_step_at of.now (kinds_of_properties properties.now) steps.now k ≡ None) }
    ensures none { IsNone result → (k : ℕ) → wrong_step_at of.now (kinds_of_properties properties.now) steps.now k ≡ None }
{
    for at in 0..properties.len() {
        if let Some(found) = wrong_at(properties, steps, at, of) {
            return Some((at as u16, found));
        }
    }
    None
}

/// The sense of the step at a place of a side, where there is one and it isn't allowed.
fn wrong_at(
    properties: &[PropDecl],
    steps: &[StepExpr],
    at: usize,
    of: &Properties<'_>,
) -> Option<Sense>
    ensures { result ≡ wrong_step_at of.now (kinds_of_properties properties.now) steps.now at }
{
    let Some(property) = properties.get(at) else {
        return None;
    };
    match steps.get(at) {
        Some(step) => wrong_step(property.kind, step, of),
        None => None,
    }
}
