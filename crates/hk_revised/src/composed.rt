//! The groups that parts are composed to.

ghost use Rattle.std.specs.Prelude.{◌≡◌, length, IsSome, OnOk};
ghost use Rattle.hk_group.specs.Composed.{HaveLengths};

use crate::parts::{Part, bounds_of};
use hk_base::{List, list_of, pair};
use hk_group::{Group, Scopes, compose};
use hk_spec::{Bound, Bounds};
use std::alloc::{AllocError, Global};

/// Puts a specification and its scope at the end of the lists.
fn push_both(
    bounds: &mut Bounds,
    scopes: &mut Scopes,
    bound: Bound,
    scope: List<u16>,
) -> Result<(), AllocError>
    requires one_each { bound.len ≡ length scope }
    requires lengths { HaveLengths bounds.old scopes.old }
    ensures { OnOk result (HaveLengths bounds.new scopes.new) }
{
    if let Err(refused) = bounds.push(bound) {
        drop(scope);
        return Err(refused);
    }
    scopes.push(scope)?;
    Ok(())
}

/// Puts a copy of a specification at the end of a list, and its scope at the end of the other, where
/// the scope has its length.
fn push_bound(
    alloc: Global,
    bounds: &mut Bounds,
    scopes: &mut Scopes,
    bound: &Bound,
    scope: &[u16],
) -> Option<()>
    requires { HaveLengths bounds.old scopes.old }
    ensures { IsSome result → HaveLengths bounds.new scopes.new }
{
    if usize::from(bound.len) != scope.len() {
        return None;
    }
    let (copy, vars) = pair(bound.copy(alloc), list_of(alloc, scope)).ok()?;
    push_both(bounds, scopes, copy, vars).ok()
}

/// Puts specifications of one scope at the ends of the lists.
fn push_bounds(
    alloc: Global,
    bounds: &mut Bounds,
    scopes: &mut Scopes,
    more: &[Bound],
    scope: &[u16],
) -> Option<()>
    requires { HaveLengths bounds.old scopes.old }
    ensures { IsSome result → HaveLengths bounds.new scopes.new }
{
    for bound in more {
        push_bound(alloc, bounds, scopes, bound, scope)?;
    }
    Some(())
}

/// Puts a part at the ends of the lists.
fn push_part(alloc: Global, bounds: &mut Bounds, scopes: &mut Scopes, part: &Part) -> Option<()>
    requires { HaveLengths bounds.old scopes.old }
    ensures { IsSome result → HaveLengths bounds.new scopes.new }
{
    let len = u16::try_from(part.scope.len()).ok()?;
    let more = bounds_of(alloc, part.rule, len)?;
    let pushed = push_bounds(alloc, bounds, scopes, more.as_slice(), part.scope);
    drop(more);
    pushed
}

/// Puts parts at the ends of the lists.
fn push_parts(alloc: Global, bounds: &mut Bounds, scopes: &mut Scopes, parts: &[Part]) -> Option<()>
    requires { HaveLengths bounds.old scopes.old }
    ensures { IsSome result → HaveLengths bounds.new scopes.new }
{
    for part in parts {
        push_part(alloc, bounds, scopes, part)?;
    }
    Some(())
}

/// The group of parts, which are put into lists that are empty.
fn composed(
    alloc: Global,
    bounds: &mut Bounds,
    scopes: &mut Scopes,
    parts: &[Part],
) -> Option<Group>
    requires { HaveLengths bounds.old scopes.old }
{
    push_parts(alloc, bounds, scopes, parts)?;
    if bounds.as_slice().is_empty() {
        return None;
    }
    compose(alloc, bounds, scopes).ok()
}

/// The group of parts.
pub fn group_of(alloc: Global, parts: &[Part]) -> Option<Group> {
    let mut bounds = List::new(alloc);
    let mut scopes = List::new(alloc);
    let group = composed(alloc, &mut bounds, &mut scopes, parts);
    drop(bounds);
    drop(scopes);
    group
}
