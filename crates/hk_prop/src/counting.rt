//! How many values sets have, and which of them has none.

ghost use Rattle.std.specs.Prelude.{◌≡◌, ◌≤◌, length};
ghost use Rattle.hk_prop.specs.Contents.{first_empty, has_empty, values_left};
ghost use Rattle.hk_prop.specs.Settling.{empty_of};

use crate::settled::Settled;
use hk_table::value_count;

/// How many values at most 256 sets have, added up.
pub(crate) fn count_values(sets: &[u128]) -> u32
    requires { length sets.now ≤ 256 }
    ensures { result ≡ values_left sets.now }
{
    let mut count = 0;
    'sets: for set in sets {
        count += value_count(*set);
    }
    count
}

/// Whether some set has no value.
pub(crate) fn is_some_empty(sets: &[u128]) -> bool
    ensures { result ≡ has_empty sets.now }
{
    sets.iter().any(|set| *set == 0)
}

/// The first of at most 256 sets that has no value, where there is one.
pub(crate) fn settled(sets: &[u128]) -> Settled
    requires { length sets.now ≤ 256 }
    ensures { empty_of result ≡ first_empty sets.now }
{
    'sets: for at in 0..sets.len() {
        if sets[at] == 0 {
            return Settled::Empty(at as u16);
        }
    }
    Settled::Stands
}
