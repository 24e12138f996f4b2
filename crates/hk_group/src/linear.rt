//! Sums of variables with coefficients.

ghost use Rattle.std.specs.Prelude.{◌≡◌, ◌<◌, ◌≤◌, length, All, IfSome};
ghost use Rattle.hk_group.specs.Problems.{IsLinear};
ghost use Rattle.hk_group.specs.Solutions.{linear_value, cost_by};
ghost use Rattle.hk_group.specs.Limits.{most_variables, value_count};

use crate::limits::{VALUES, VARIABLES};
use hk_base::List;

/// A sum of variables, each with a coefficient. The scope lists the variables by their places, from
/// 0, in the order of declaration.
#[derive(Debug, Drop)]
pub struct Linear {
    pub scope: List<u16>,
    pub coefs: List<i64>,
}

/// What the values cost by this objective: 0 where there is none.
pub fn cost_by(objective: &Option<Linear>, values: &[u8]) -> i64
    requires linear { IfSome objective.now (λ linear. IsLinear (length values.now) linear.scope linear.coefs) }
    requires few { length values.now ≤ most_variables }
    requires small { All (λ value. value < value_count) values.now }
    ensures { result ≡ cost_by objective.now values.now }
{
    match objective {
        None => 0,
        Some(linear) => linear_value(linear.scope.as_slice(), linear.coefs.as_slice(), values),
    }
}

/// The sum of coefficient times value over the variables of the scope. It is at most 32,512,000,000
/// in size: no more than 256 products of a coefficient and a value of at most 127.
pub fn linear_value(scope: &[u16], coefs: &[i64], values: &[u8]) -> i64
    requires linear { IsLinear (length values.now) scope.now coefs.now }
    requires few { length values.now ≤ most_variables }
    requires small { All (λ value. value < value_count) values.now }
    ensures { result ≡ linear_value scope.now coefs.now values.now }
{
    let mut sum = 0;
    for (variable, coef) in scope.iter().zip(coefs) {
        sum += *coef * i64::from(values[*variable as usize]);
    }
    sum
}
