//! Whether values make the constraints hold, and what they cost.

ghost use Rattle.std.specs.Prelude.{◌≡◌, ◌≢◌, ◌<◌, ◌≤◌, ◌↔◌, length, All, AllPairs, Any, IfOk, IfErr, IfSome, IsSome, IsTrue};
ghost use Rattle.hk_group.specs.Problems.{IsConstraint};
ghost use Rattle.hk_group.specs.Solutions.{scope_values, Holds, IsUsers, cost_of};
ghost use Rattle.hk_group.specs.Limits.{most_variables, value_count};

use crate::counting::{count_in, each_occurs, each_window, lies_from};
use crate::limits::{VALUES, VARIABLES};
use crate::linear::{cost_by, linear_value};
use crate::problem::{Constraint, Problem};
use hk_base::Bytes;
use std::alloc::{AllocError, Global};

/// What the values cost, where they make every constraint of the problem hold, and else None.
/// There is one value below 128 for each variable; whether it is in the variable's set isn't asked.
/// No cost and no sum is more than 32,512,000,000 in size. Fails only for want of memory, which
/// the states of a user's specification take: the library's constraints are judged without states.
pub fn judge(alloc: Global, problem: &Problem, values: &[u8]) -> Result<Option<i64>, AllocError>
    requires one_each { length values.now ≡ length problem.now.domains }
    requires small { All (λ value. value < value_count) values.now }
    ensures holds { IfOk result (λ cost. IsSome cost ↔ All (Holds values.now) problem.now.constraints) }
    ensures cost { IfOk result (λ found. IfSome found (λ cost. cost ≡ cost_of problem.now values.now)) }
    ensures err { IfErr result (λ refused. Any IsUsers problem.now.constraints) }
{
    for constraint in problem.constraints() {
        if !holds(alloc, constraint, values)? {
            return Ok(None);
        }
    }
    Ok(Some(cost_by(problem.objective(), values)))
}

fn holds(alloc: Global, constraint: &Constraint, values: &[u8]) -> Result<bool, AllocError>
    requires scope { IsConstraint (length values.now) constraint.now }
    requires few { length values.now ≤ most_variables }
    requires small { All (λ value. value < value_count) values.now }
    ensures ok { IfOk result (λ found. IsTrue found ↔ Holds values.now constraint.now) }
    ensures err { IfErr result (λ refused. IsUsers constraint.now) }
{
    match constraint {
        Constraint::AllDifferent { scope } => Ok(are_different(scope.as_slice(), values)),
        Constraint::Among {
            scope,
            set,
            least,
            most,
        } => {
            let count = count_in(*set, scope.as_slice(), values);
            Ok(lies_from(*least, *most, count))
        }
        Constraint::Sequence {
            scope,
            window,
            set,
            least,
            most,
        } => Ok(each_window(*window, *set, *least, *most, scope.as_slice(), values)),
        Constraint::Gcc { scope, rows } => {
            Ok(each_occurs(rows.as_slice(), scope.as_slice(), values))
        }
        Constraint::Sum {
            scope,
            coefs,
            least,
            most,
        } => {
            let value = linear_value(scope.as_slice(), coefs.as_slice(), values);
            Ok(*least <= value && value <= *most)
        }
        Constraint::User { bound, scope } => {
            let own = values_of(alloc, scope.as_slice(), values)?;
            bound.accepts(alloc, own.as_slice(), 0)
        }
    }
}

/// The values of the scope's variables, in the order of the scope.
fn values_of(alloc: Global, scope: &[u16], values: &[u8]) -> Result<Bytes, AllocError>
    requires declared { All (λ variable. variable < length values.now) scope.now }
    ensures { IfOk result (λ own. own ≡ scope_values scope.now values.now) }
{
    let mut own = Bytes::new(alloc);
    for variable in scope {
        own.push(values[*variable as usize])?;
    }
    Ok(own)
}

fn are_different(scope: &[u16], values: &[u8]) -> bool
    requires declared { All (λ variable. variable < length values.now) scope.now }
    requires small { All (λ value. value < value_count) values.now }
    ensures { IsTrue result ↔ AllPairs (λ x y. x ≢ y) (scope_values scope.now values.now) }
{
    let mut seen = 0u128;
    for variable in scope {
        let value = values[*variable as usize];
        if (seen >> value) & 1 == 1 {
            return false;
        }
        seen |= 1u128 << value;
    }
    true
}
