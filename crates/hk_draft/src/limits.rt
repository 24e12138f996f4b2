//! Whether the numbers of a statement are within their limits.

ghost use Rattle.std.specs.Prelude.{◌≤◌, ◌<◌, ◌↔◌, All, IsTrue};
ghost use Rattle.hk_base.specs.Limits.{number_limit};
ghost use Rattle.hk_group.specs.Limits.{value_count};
ghost use Rattle.hk_group.specs.Problems.{IsWithin};

use hk_base::LIM;
use hk_group::limits::VALUES;
use hk_lines::Values;

/// Whether a bound is within the limit.
pub fn is_within_limit(number: i64) -> bool
    ensures { IsTrue result ↔ IsWithin number_limit number }
{
    -LIM <= number && number <= LIM
}

/// Whether no range is turned, and no value passes the limit.
pub fn is_small_set(set: &[Values]) -> bool
    ensures { IsTrue result ↔ All (λ values. (values.first ≤ values.last) × (values.last < value_count)) set.now }
{
    set.iter().all(|values| values.first <= values.last && values.last < u64::from(VALUES))
}
