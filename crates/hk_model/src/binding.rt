//! What a post declares, after the lines before it.

ghost use Rattle.std.specs.Prelude.{◌≡◌, ◌<◌, ◌↔◌, ◌⊎◌, ℕ, All, Any, false, length, map, None, Some, IsNone, IsTrue, OnErr, OnOk, IfOk, IfErr, IfSome};
ghost use Rattle.hk_group.specs.Limits.{most_constraints, value_count, greatest_coefficient};
ghost use Rattle.hk_draft.specs.Drafts.{HasGroup};
ghost use Rattle.hk_model.specs.Postings.{AddsPost, FitsKind, FitKinds, IsSmallArg, IsArgOf, AreArgsOf, spec_of};
ghost use Rattle.hk_model.specs.inside.PostFaults.{HasNoFit, IsPostFault};
ghost use Rattle.hk_lines.specs.PostShapes.{args_of, plain_arg, plain_post};
ghost use Rattle.hk_group.specs.Problems.{IsWithin};
ghost use Rattle.hk_spec.specs.Specifications.{param_kinds};

use hk_base::List;
use hk_draft::{Draft, LineFault, RefusalKind, is_small_set, is_within_limit, places_of};
use hk_group::limits::{COEFFICIENT, VALUES};
use hk_group::{Constraint, is_rising};
use hk_lines::{PostArg, PostShape, Values, set_of_values};
use hk_spec::{Arg, Bound, Param, ParamKind, Spec};
use std::alloc::{AllocError, Global};

/// Declares what a post of this shape says, after the specifications and the problem that were
/// declared before it. An error leaves the draft as it was.
pub fn post(
    alloc: Global,
    draft: &mut Draft,
    specs: &[Spec],
    shape: &PostShape<'_>,
) -> Result<(), LineFault>
    ensures ok { OnOk result (AddsPost specs.now (plain_post shape.now) draft.old draft.new) }
    ensures err { IfErr result (IsPostFault specs.now draft.old (plain_post shape.now)) }
    ensures unchanged { OnErr result (draft.new ≡ draft.old) }
{
    add_post(
        alloc,
        draft,
        specs,
        shape.spec,
        shape.args.as_slice(),
        shape.names.as_slice(),
    )
}

/// Declares that the specification of this name, with these arguments, accepts the values of the
/// variables of these names. An error leaves the draft as it was.
fn add_post(
    alloc: Global,
    draft: &mut Draft,
    specs: &[Spec],
    name: &[u8],
    args: &[PostArg],
    names: &[&[u8]],
) -> Result<(), LineFault>
    ensures ok { OnOk result (AddsPost specs.now (record { spec = name.now; args = args_of args.now; names = map (λ n. n.now) names.now }) draft.old draft.new) }
    ensures err { IfErr result (IsPostFault specs.now draft.old (record { spec = name.now; args = args_of args.now; names = map (λ n. n.now) names.now })) }
    ensures unchanged { OnErr result (draft.new ≡ draft.old) }
{
    let Some(spec) = fitting_spec(specs, name, args) else {
        return Err(LineFault::Bad(RefusalKind::Name));
    };
    let scope = places_of(alloc, draft, names)?;
    if post_passes_limit(draft, args, names.len()) {
        drop(scope);
        return Err(LineFault::Bad(RefusalKind::Limit));
    }
    if !is_rising(scope.as_slice()) {
        drop(scope);
        return Err(LineFault::Bad(RefusalKind::Scope));
    }
    let len = draft.scope_len(scope.as_slice());
    match bind(alloc, spec, args, len) {
        Ok(bound) => {
            draft.add_constraint(Constraint::User { bound, scope })?;
            Ok(())
        }
        Err(_) => {
            drop(scope);
            Err(LineFault::NoMemory)
        }
    }
}

/// The specification of this name, where the arguments are as its parameters ask.
fn fitting_spec<'s>(specs: &'s [Spec], name: &[u8], args: &[PostArg]) -> Option<&'s Spec>
    ensures declared { IfSome result (λ spec. spec_of specs.now name.now ≡ Some spec.now) }
    ensures fit { IfSome result (λ spec. FitKinds (param_kinds spec.now) (args_of args.now)) }
    ensures none { IsNone result → HasNoFit specs.now name.now (args_of args.now) }
{
    let spec = spec_named(specs, name)?;
    if !args_fit(spec.params.as_slice(), args) {
        return None;
    }
    Some(spec)
}

/// The specification of this name, where there is one.
pub fn spec_named<'s>(specs: &'s [Spec], name: &[u8]) -> Option<&'s Spec>
    ensures some { IfSome result (λ spec. spec_of specs.now name.now ≡ Some spec.now) }
    ensures none { IsNone result → spec_of specs.now name.now ≡ None }
{
    for spec in specs {
        if name == spec.name.as_slice() {
            return Some(spec);
        }
    }
    None
}

/// Whether the arguments are one for each parameter, in the form that its kind asks.
fn args_fit(params: &[Param], args: &[PostArg]) -> bool
    ensures { IsTrue result ↔ FitKinds (map (λ param. param.kind) params.now) (args_of args.now) }
{
    if params.len() != args.len() {
        return false;
    }
    for (param, arg) in params.iter().zip(args) {
        if !fits_kind(param.kind, arg) {
            return false;
        }
    }
    true
}

/// Whether the argument has the form that the kind asks.
fn fits_kind(kind: ParamKind, arg: &PostArg) -> bool
    ensures { IsTrue result ↔ FitsKind kind (plain_arg arg.now) }
{
    match (kind, arg) {
        (ParamKind::Num, PostArg::Number(_)) => true,
        (ParamKind::Set, PostArg::Set(_)) => true,
        (ParamKind::List, PostArg::Numbers(_)) => true,
        _ => false,
    }
}

/// Whether there is no room for a post, or one of its arguments passes a limit, on a scope of so
/// many variables.
fn post_passes_limit(draft: &Draft, args: &[PostArg], count: usize) -> bool
    ensures passes { IsTrue result → ((length draft.now.constraints < most_constraints) × HasGroup draft.now → ⊥) ⊎ Any (λ arg. IsSmallArg count arg → ⊥) (args_of args.now) }
    ensures room { result ≡ false → (length draft.now.constraints < most_constraints) × HasGroup draft.now }
    ensures small { result ≡ false → All (IsSmallArg count) (args_of args.now) }
{
    if !draft.has_room() {
        return true;
    }
    !are_small_args(args, count)
}

/// Whether each argument is within its limits, on a scope of so many variables.
fn are_small_args(args: &[PostArg], count: usize) -> bool
    ensures { IsTrue result ↔ All (IsSmallArg count) (args_of args.now) }
{
    for arg in args {
        if !is_small_arg(arg, count) {
            return false;
        }
    }
    true
}

/// Whether the argument is within its limits, on a scope of so many variables.
fn is_small_arg(arg: &PostArg, count: usize) -> bool
    ensures { IsTrue result ↔ IsSmallArg count (plain_arg arg.now) }
{
    match arg {
        PostArg::Number(value) => is_within_limit(*value),
        PostArg::Set(set) => is_small_set(set.as_slice()),
        PostArg::Numbers(numbers) => {
            numbers.as_slice().len() == count && are_small_numbers(numbers.as_slice())
        }
    }
}

/// Whether each number is at most as great as a coefficient.
fn are_small_numbers(numbers: &[i64]) -> bool
    ensures { IsTrue result ↔ All (IsWithin greatest_coefficient) numbers.now }
{
    numbers
        .iter()
        .all(|number| -COEFFICIENT <= *number && *number <= COEFFICIENT)
}

/// The specification with arguments that it asks and that are within their limits, for scopes of
/// `len` variables.
fn bind(alloc: Global, spec: &Spec, args: &[PostArg], len: u16) -> Result<Bound, AllocError>
    requires fit { FitKinds (param_kinds spec.now) (args_of args.now) }
    requires small { All (IsSmallArg len) (args_of args.now) }
    ensures spec { IfOk result (λ bound. bound.spec ≡ spec.now) }
    ensures args { IfOk result (λ bound. AreArgsOf (args_of args.now) bound.args) }
    ensures len { IfOk result (λ bound. bound.len ≡ len) }
{
    // that a specification keeps its rules is known where a field of it is used
    let _ = &spec.name;
    let args = bound_args(alloc, args)?;
    match spec.copy(alloc) {
        Ok(spec) => Ok(Bound::new(spec, args, len)),
        Err(failed) => {
            drop(args);
            Err(failed)
        }
    }
}

/// Arguments as a specification takes them.
fn bound_args(alloc: Global, args: &[PostArg]) -> Result<List<Arg>, AllocError>
    requires { (count : ℕ) × All (IsSmallArg count) (args_of args.now) }
    ensures { IfOk result (AreArgsOf (args_of args.now)) }
{
    let mut bound = List::new(alloc);
    for arg in args {
        bound.push(bound_arg(alloc, arg)?)?;
    }
    Ok(bound)
}

/// An argument as a specification takes it.
fn bound_arg(alloc: Global, arg: &PostArg) -> Result<Arg, AllocError>
    requires { (count : ℕ) × IsSmallArg count (plain_arg arg.now) }
    ensures { IfOk result (IsArgOf (plain_arg arg.now)) }
{
    match arg {
        PostArg::Number(value) => Ok(Arg::Num(*value)),
        PostArg::Set(set) => Ok(Arg::Set(set_of_values(set.as_slice()))),
        PostArg::Numbers(numbers) => {
            let mut copy = List::new(alloc);
            copy.push_all(numbers.as_slice())?;
            Ok(Arg::Nums(copy))
        }
    }
}
