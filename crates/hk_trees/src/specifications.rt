//! What the library's specifications are put together of: parameters, properties, and the two halves
//! of a specification.
ghost use Rattle.std.specs.Prelude.{◌≡◌, ℤ, pos, [], ◌∷◌, codes, Ok, IfOk};
ghost use Rattle.hk_spec.specs.Library.{all_named, interval_named, list_named, min_named, number_named, set_named, some_named};
ghost use Rattle.hk_spec.specs.Specifications.{IsSpecification};

use hk_base::{Bytes, List, list_of};
use hk_kinds::{Kind, Prop};
use hk_spec::{Cond, Param, ParamKind, PropDecl, Spec, StepExpr};
use std::alloc::{AllocError, Global};

/// The name and the parameters of a specification, and its properties of both sides.
pub type Names = ((Bytes, List<Param>), (List<PropDecl>, List<PropDecl>));

/// The test of a specification, and its steps of both sides.
pub type Rules = (Cond, (List<StepExpr>, List<StepExpr>));

/// The specification of these parts, which keep its rules.
pub fn spec_of(names: Names, rules: Rules) -> Spec
    requires { IsSpecification (record { name = names.0.0; params = names.0.1; down = names.1.0; up = names.1.1; test = rules.0; down_step = rules.1.0; up_step = rules.1.1 }) }
    ensures { result ≡ record { name = names.0.0; params = names.0.1; down = names.1.0; up = names.1.1; test = rules.0; down_step = rules.1.0; up_step = rules.1.1 } }
{
    let ((name, params), (down, up)) = names;
    let (test, (down_step, up_step)) = rules;
    Spec {
        name,
        params,
        down,
        up,
        test,
        down_step,
        up_step,
    }
}

/// A parameter.
pub fn param(alloc: Global, name: &[u8], kind: ParamKind) -> Result<Param, AllocError>
    ensures { IfOk result (λ param. param ≡ record { name = name.now; kind = kind }) }
{
    match list_of(alloc, name) {
        Ok(name) => Ok(Param { name, kind }),
        Err(refused) => Err(refused),
    }
}

/// A property.
pub fn property(alloc: Global, name: &[u8], kind: Kind, init: Prop) -> Result<PropDecl, AllocError>
    ensures { IfOk result (λ property. property ≡ record { name = name.now; kind = kind; init = init }) }
{
    match list_of(alloc, name) {
        Ok(name) => Ok(PropDecl { name, kind, init }),
        Err(refused) => Err(refused),
    }
}

/// `NAME Interval 0..0`.
pub fn interval(alloc: Global, name: &[u8]) -> Result<PropDecl, AllocError>
    ensures { IfOk result (λ property. property ≡ interval_named name.now) }
{
    property(alloc, name, Kind::Interval, Prop::Pair(0, 0))
}
