//! Counts of faults.

ghost use Rattle.std.specs.Prelude.{◌≡◌};
ghost use Rattle.hk_base.specs.Calls.{one_more};
ghost use Rattle.hk_base.specs.Hosts.{IsHigher};

use crate::host::Failed;

/// Counts one fault more, short of the largest count, and gives the answer of a call that failed.
pub fn fault(count: &mut u64) -> Failed
    ensures counted { count.new ≡ one_more count.old }
    ensures higher { IsHigher count.old count.new }
{
    *count = count.saturating_add(1);
    Failed
}
