//! Specifications, which keep their rules.
ghost use Rattle.std.specs.Prelude.{◌≡◌, IfOk};

use crate::copies::{copy_cond, copy_list};
use crate::expressions::Cond;
use crate::parts::{Param, PropDecl, StepExpr};
use hk_base::{Bytes, List, list_of, pair};
use std::alloc::{AllocError, Global};
use std::marker::Model;

/// A specification: its parameters, its properties before and after a position, the test of a
/// position, and how each property steps over a position. Each keeps the rules of a specification.
#[derive(Debug, Drop)]
pub struct Spec {
    pub name: Bytes,
    pub params: List<Param>,
    pub down: List<PropDecl>,
    pub up: List<PropDecl>,
    pub test: Cond,
    pub down_step: List<StepExpr>,
    pub up_step: List<StepExpr>,
}

/// The name and the parameters, and the properties of both sides.
type Names = ((Bytes, List<Param>), (List<PropDecl>, List<PropDecl>));

/// The test, and the steps of both sides.
type Rules = (Cond, (List<StepExpr>, List<StepExpr>));

impl Model for Spec {
    ghost use Rattle.std.specs.Coded.{codes};
    ghost use Rattle.hk_spec.specs.contracts.expressions.Cond as condition;
    ghost use Rattle.hk_spec.specs.contracts.parts.Param as param;
    ghost use Rattle.hk_spec.specs.contracts.parts.PropDecl as declaration;
    ghost use Rattle.hk_spec.specs.contracts.parts.StepExpr as expression;
    ghost use Rattle.hk_spec.specs.Specifications.{Specification, IsSpecification};

    ghost Value = { Specification };

    ghost coded = { Prim.hlevel (codes, condition.the_row.coded, param.the_row.coded, declaration.the_row.coded, expression.the_row.coded) };

    ghost view = { λ s. record { name = s.name; params = s.params; down = s.down; up = s.up; test = s.test; down_step = s.down_step; up_step = s.up_step } };

    ghost invariant = { λ s. IsSpecification (record { name = s.name; params = s.params; down = s.down; up = s.up; test = s.test; down_step = s.down_step; up_step = s.up_step }) };
}

impl Spec {
    /// An equal specification.
    pub fn copy(&self, alloc: Global) -> Result<Spec, AllocError>
        ensures { IfOk result (λ spec. spec ≡ self.now) }
    {
        let names = copy_names(
            alloc,
            self.name.as_slice(),
            self.params.as_slice(),
            self.down.as_slice(),
            self.up.as_slice(),
        );
        let rules = copy_rules(
            alloc,
            &self.test,
            self.down_step.as_slice(),
            self.up_step.as_slice(),
        );
        match pair(names, rules) {
            Ok((((name, params), (down, up)), (test, (down_step, up_step)))) => Ok(Spec {
                name,
                params,
                down,
                up,
                test,
                down_step,
                up_step,
            }),
            Err(refused) => Err(refused),
        }
    }
}

/// An equal name, equal parameters and equal properties of both sides.
fn copy_names(
    alloc: Global,
    name: &[u8],
    params: &[Param],
    down: &[PropDecl],
    up: &[PropDecl],
) -> Result<Names, AllocError>
    ensures { IfOk result (λ names. names ≡ ((name.now, params.now), (down.now, up.now))) }
{
    let words = pair(list_of(alloc, name), copy_list(alloc, params));
    let properties = pair(copy_list(alloc, down), copy_list(alloc, up));
    pair(words, properties)
}

/// An equal test, and equal steps of both sides.
fn copy_rules(
    alloc: Global,
    test: &Cond,
    down_step: &[StepExpr],
    up_step: &[StepExpr],
) -> Result<Rules, AllocError>
    ensures { IfOk result (λ rules. rules ≡ (test.now, (down_step.now, up_step.now))) }
{
    let steps = pair(copy_list(alloc, down_step), copy_list(alloc, up_step));
    pair(copy_cond(alloc, test), steps)
}
