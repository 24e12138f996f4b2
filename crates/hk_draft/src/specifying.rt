//! Constraints and objectives as specifications of the library, side by side with their scopes.

ghost use Rattle.std.specs.Prelude.{◌≡◌, ◌++◌, ◌∷◌, [], length, map, All, OnOk};
ghost use Rattle.hk_group.specs.Composed.{HaveLengths, parts_of};
ghost use Rattle.hk_group.specs.Grouping.{constraint_parts, part_on};
ghost use Rattle.hk_group.specs.Limits.{most_variables};
ghost use Rattle.hk_group.specs.Problems.{IsConstraint, IsGcc, IsScope};
ghost use Rattle.hk_draft.specs.Items.{rule_parts};
ghost use Rattle.hk_draft.specs.inside.Items.{IsSmallRule};
ghost use Rattle.hk_spec.specs.Library.{gcc_bounds};

use crate::items::Rule;
use hk_base::list_of;
use hk_group::limits::VARIABLES;
use hk_group::{Constraint, Scopes};
use hk_lib::{alldifferent, among, gcc, objective, sequence, sum};
use hk_spec::{Bound, Bounds};
use std::alloc::{AllocError, Global};

/// Puts the specifications of a constraint or of the objective at the end of a list, and their
/// scopes at the end of another.
pub fn push_rule(
    alloc: Global,
    specs: &mut Bounds,
    scopes: &mut Scopes,
    rule: &Rule,
) -> Result<(), AllocError>
    requires small { IsSmallRule rule.now }
    requires lengths { HaveLengths specs.old scopes.old }
    ensures parts { OnOk result (parts_of specs.new scopes.new ≡ parts_of specs.old scopes.old ++ rule_parts rule.now) }
    ensures lengths { OnOk result (HaveLengths specs.new scopes.new) }
{
    match rule {
        Rule::Constraint(constraint) => push_constraint(alloc, specs, scopes, constraint),
        Rule::Objective(linear) => {
            let scope = linear.scope.as_slice();
            let bound = objective(alloc, linear.coefs.as_slice())?;
            push_part(alloc, specs, scopes, bound, scope)
        }
    }
}

/// The same of a constraint.
fn push_constraint(
    alloc: Global,
    specs: &mut Bounds,
    scopes: &mut Scopes,
    constraint: &Constraint,
) -> Result<(), AllocError>
    requires small { IsConstraint most_variables constraint.now }
    requires lengths { HaveLengths specs.old scopes.old }
    ensures parts { OnOk result (parts_of specs.new scopes.new ≡ parts_of specs.old scopes.old ++ constraint_parts constraint.now) }
    ensures lengths { OnOk result (HaveLengths specs.new scopes.new) }
{
    match constraint {
        Constraint::Gcc { scope, rows } => {
            push_rows(alloc, specs, scopes, scope.as_slice(), rows.as_slice())
        }
        Constraint::AllDifferent { scope } => {
            let bound = alldifferent(alloc, variable_count(scope.as_slice()))?;
            push_part(alloc, specs, scopes, bound, scope.as_slice())
        }
        Constraint::Among {
            scope,
            set,
            least,
            most,
        } => {
            let count = variable_count(scope.as_slice());
            let bound = among(alloc, count, *set, *least, *most)?;
            push_part(alloc, specs, scopes, bound, scope.as_slice())
        }
        Constraint::Sequence {
            scope,
            window,
            set,
            least,
            most,
        } => {
            let count = variable_count(scope.as_slice());
            let bound = sequence(alloc, count, *window, *set, *least, *most)?;
            push_part(alloc, specs, scopes, bound, scope.as_slice())
        }
        Constraint::Sum {
            scope,
            coefs,
            least,
            most,
        } => {
            let bound = sum(alloc, coefs.as_slice(), *least, *most)?;
            push_part(alloc, specs, scopes, bound, scope.as_slice())
        }
        Constraint::User { bound, scope } => {
            push_part(alloc, specs, scopes, bound.copy(alloc)?, scope.as_slice())
        }
    }
}

/// The same of a `gcc`: one specification a row.
fn push_rows(
    alloc: Global,
    specs: &mut Bounds,
    scopes: &mut Scopes,
    scope: &[u16],
    rows: &[(u8, i64, i64)],
) -> Result<(), AllocError>
    requires small { IsGcc most_variables scope.now rows.now }
    requires lengths { HaveLengths specs.old scopes.old }
    ensures parts { OnOk result (parts_of specs.new scopes.new ≡ parts_of specs.old scopes.old ++ map (part_on scope.now) (gcc_bounds (length scope.now) rows.now)) }
    ensures lengths { OnOk result (HaveLengths specs.new scopes.new) }
{
    let bounds = gcc(alloc, variable_count(scope), rows)?;
    push_bounds(alloc, specs, scopes, bounds.into_vec(), scope)
}

/// Puts specifications at the end of a list, and a copy of their scope for each at the end of
/// another.
fn push_bounds(
    alloc: Global,
    specs: &mut Bounds,
    scopes: &mut Scopes,
    bounds: Vec<Bound>,
    scope: &[u16],
) -> Result<(), AllocError>
    requires lens { All (λ bound. bound.len ≡ length scope.now) bounds.items }
    requires lengths { HaveLengths specs.old scopes.old }
    ensures parts { OnOk result (parts_of specs.new scopes.new ≡ parts_of specs.old scopes.old ++ map (part_on scope.now) bounds.items) }
    ensures lengths { OnOk result (HaveLengths specs.new scopes.new) }
{
    for bound in bounds {
        push_part(alloc, specs, scopes, bound, scope)?;
    }
    Ok(())
}

/// Puts a specification at the end of a list, and a copy of its scope at the end of another.
fn push_part(
    alloc: Global,
    specs: &mut Bounds,
    scopes: &mut Scopes,
    bound: Bound,
    scope: &[u16],
) -> Result<(), AllocError>
    requires len { bound.len ≡ length scope.now }
    requires lengths { HaveLengths specs.old scopes.old }
    ensures parts { OnOk result (parts_of specs.new scopes.new ≡ parts_of specs.old scopes.old ++ part_on scope.now bound ∷ []) }
    ensures lengths { OnOk result (HaveLengths specs.new scopes.new) }
{
    specs.push(bound)?;
    let scope = list_of(alloc, scope)?;
    scopes.push(scope)?;
    Ok(())
}

/// How many variables a scope has.
fn variable_count(scope: &[u16]) -> u16
    requires { IsScope most_variables scope.now }
    ensures { result ≡ length scope.now }
{
    prove!(scope.len() <= VARIABLES);
    scope.len() as u16
}
