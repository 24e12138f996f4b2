//! The search: a walk through the assignments, in their order.

ghost use Rattle.std.specs.Prelude.{◌≡◌, ◌<◌, ◌↔◌, IfOk, IfSome, IsTrue, OnOk};
ghost use Rattle.hk_base.specs.Lists.{IsFrontOf};
ghost use Rattle.hk_base.specs.Sets.{Has};
ghost use Rattle.hk_group.specs.Solutions.{cost_of};
ghost use Rattle.hk_search.specs.Findings.{IsFinding};
ghost use Rattle.hk_search.specs.inside.Walks.{IsBegun, IsBestAfter};

use crate::best::{is_settled, offer};
use crate::found::Found;
use hk_group::Problem;
use hk_group::limits::VALUES;
use std::alloc::{AllocError, Global};

/// The answer of the problem: the first of its solutions of least cost, or None where it has no
/// solution.
pub fn search_plain(alloc: Global, problem: &Problem) -> Result<Option<Found>, AllocError>
    ensures { IfOk result (IsFinding problem.now) }
{
    let mut values = Vec::with_capacity(alloc, problem.domains().len())?;
    let mut best = None;
    improve_from(alloc, problem, &mut values, &mut best)?;
    Ok(best)
}

/// Goes on from values of the first variables to all that begin with them, in order, and keeps the
/// best. Where nothing can be better than the best so far, nothing is tried. Afterwards the values
/// are again those that were given.
fn improve_from(
    alloc: Global,
    problem: &Problem,
    values: &mut Vec<u8>,
    best: &mut Option<Found>,
) -> Result<(), AllocError>
    requires begun { IsBegun problem.now values.old.items }
    requires priced { IfSome best.old (λ found. found.cost ≡ cost_of problem.now found.values) }
    ensures tried { OnOk result (IsBestAfter problem.now (IsFrontOf values.old.items) best.old best.new) }
    ensures back { OnOk result (values.new.items ≡ values.old.items) }
{
    if is_settled(problem, best) {
        return Ok(());
    }
    let domains = problem.domains();
    if values.len() >= domains.len() {
        return offer(alloc, problem, values.as_slice(), best);
    }
    let domain = domains[values.len()];
    for value in 0..VALUES as u8 {
        if !has_value(domain, value) {
            continue;
        }
        values.push(value)?;
        improve_from(alloc, problem, values, best)?;
        values.pop();
    }
    Ok(())
}

fn has_value(domain: u128, value: u8) -> bool
    requires { value < VALUES }
    ensures { IsTrue result ↔ Has domain value }
{
    (domain >> value) & 1 == 1
}
