//! Copies of specifications and scopes as the parts of a group.
ghost use Rattle.std.specs.Prelude.{◌≡◌, [], ◌∷◌, ◌++◌, length, All, IfOk, OnOk};
ghost use Rattle.std.specs.List.Sorted.{IsStrictlyIncreasing};
ghost use Rattle.hk_group.specs.Composed.{HaveLengths, parts_of};
ghost use Rattle.hk_group.specs.Groups.{IsPart};

use crate::parts::GroupPart;
use hk_base::{List, list_of};
use hk_spec::Bound;
use std::alloc::{AllocError, Global};

/// Copies of specifications with their scopes, in order.
pub fn copied_parts(
    alloc: Global,
    specs: &[Bound],
    scopes: &[List<u16>],
) -> Result<List<GroupPart>, AllocError>
    requires lengths { HaveLengths specs.now scopes.now }
    requires rise { All IsStrictlyIncreasing scopes.now }
    ensures parts { IfOk result (λ parts. parts ≡ parts_of specs.now scopes.now) }
    ensures rules { IfOk result (All IsPart) }
{
    let mut parts = List::new(alloc);
    for i in 0..specs.len() {
        if let Err(refused) = push_part(alloc, &mut parts, &specs[i], scopes[i].as_slice()) {
            drop(parts);
            return Err(refused);
        }
    }
    Ok(parts)
}

/// Puts a copy of a specification with its scope at the end of parts.
fn push_part(
    alloc: Global,
    parts: &mut List<GroupPart>,
    bound: &Bound,
    scope: &[u16],
) -> Result<(), AllocError>
    requires len { bound.now.len ≡ length scope.now }
    requires rising { IsStrictlyIncreasing scope.now }
    ensures parts { OnOk result (parts.new ≡ parts.old ++ record { bound = bound.now; scope = scope.now } ∷ []) }
    ensures rules { OnOk result (IsPart (record { bound = bound.now; scope = scope.now })) }
{
    match copied_part(alloc, bound, scope) {
        Ok(part) => parts.push(part),
        Err(refused) => Err(refused),
    }
}

/// A copy of a specification with its scope.
fn copied_part(alloc: Global, bound: &Bound, scope: &[u16]) -> Result<GroupPart, AllocError>
    requires len { bound.now.len ≡ length scope.now }
    requires rising { IsStrictlyIncreasing scope.now }
    ensures part { IfOk result (λ part. part ≡ record { bound = bound.now; scope = scope.now }) }
    ensures rules { IfOk result IsPart }
{
    let bound = bound.copy(alloc)?;
    match list_of(alloc, scope) {
        Ok(scope) => Ok(GroupPart::new(bound, scope)),
        Err(refused) => {
            drop(bound);
            Err(refused)
        }
    }
}
