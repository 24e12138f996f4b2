//! The sets that the values of a statement make.

ghost use Rattle.std.specs.Prelude.{◌<◌, ◌≤◌, All};
ghost use Rattle.hk_lines.specs.Plain.{values_of};
ghost use Rattle.hk_lines.specs.ValueSets.{IsSetOf};
ghost use Rattle.hk_lines.specs.inside.Ranges.{IsRange};

use crate::phrases::Values;

/// The set of these values.
pub fn set_of_values(set: &[Values]) -> u128
    requires ordered { All (λ values. values.first ≤ values.last) set.now }
    requires within { All (λ values. values.last < 128) set.now }
    ensures { IsSetOf (values_of set.now) result }
{
    let mut domain = 0;
    for values in set {
        domain |= range_set(values.first as u32, values.last as u32);
    }
    domain
}

/// The set of the values from `first` to `last`.
fn range_set(first: u32, last: u32) -> u128
    requires ordered { first ≤ last }
    requires within { last < 128 }
    ensures { IsRange first last result }
{
    (u128::MAX >> (127 - last)) & (u128::MAX << first)
}
