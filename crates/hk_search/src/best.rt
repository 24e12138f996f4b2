//! The best solution so far.

ghost use Rattle.std.specs.Prelude.{◌≡◌, ◌<◌, ◌≤◌, ◌↔◌, length, All, IsNone, IsSome, IsTrue, OnOk};
ghost use Rattle.hk_base.specs.Lists.{IsFrontOf};
ghost use Rattle.hk_search.specs.inside.Walks.{IsBegun, IsBetter, IsBestAfter};

use crate::found::Found;
use hk_base::List;
use hk_group::limits::VALUES;
use hk_group::{Problem, judge};
use std::alloc::{AllocError, Global};

/// Takes the values of all variables as the best, where they are a solution that is better than the
/// best before.
pub fn offer(
    alloc: Global,
    problem: &Problem,
    values: &[u8],
    best: &mut Option<Found>,
) -> Result<(), AllocError>
    requires begun { IsBegun problem.now values.now }
    requires small { All (λ value. value < VALUES) values.now }
    requires whole { length problem.now.domains ≤ length values.now }
    ensures { OnOk result (IsBestAfter problem.now (IsFrontOf values.now) best.old best.new) }
{
    let Some(cost) = judge(alloc, problem, values)? else {
        return Ok(());
    };
    if !is_better(cost, best) {
        return Ok(());
    }
    let values = List::from_vec(values.to_vec(alloc)?);
    *best = Some(Found { cost, values });
    Ok(())
}

/// Whether a solution of this cost is better than the best so far.
fn is_better(cost: i64, best: &Option<Found>) -> bool
    ensures { IsTrue result ↔ IsBetter cost best.now }
{
    match best {
        None => true,
        Some(found) => cost < found.cost,
    }
}

/// Whether nothing can be better than the best so far, since there is one, and all values cost the
/// same.
pub fn is_settled(problem: &Problem, best: &Option<Found>) -> bool
    ensures { IsTrue result ↔ (IsSome best.now × IsNone problem.now.objective) }
{
    best.is_some() && problem.objective().is_none()
}
