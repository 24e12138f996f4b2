//! Groups of given specifications and scopes.
ghost use Rattle.std.specs.Prelude.{◌<◌, length, All, IfOk, IfErr};
ghost use Rattle.std.specs.List.Sorted.{IsStrictlyIncreasing};
ghost use Rattle.hk_group.specs.Composed.{HaveLengths, IsComposed, IsGroupFault};

use crate::copying::copied_parts;
use crate::faults::GroupFault;
use crate::group::Group;
use crate::scopes::{Scopes, all_rise};
use hk_base::List;
use hk_spec::{Bound, Bounds};
use std::alloc::{AllocError, Global};

/// The group of copies of specifications, each about the variables of its scope, which must rise.
pub fn compose(alloc: Global, specs: &Bounds, scopes: &Scopes) -> Result<Group, GroupFault>
    requires some { 0 < length specs.now }
    requires lengths { HaveLengths specs.now scopes.now }
    ensures ok { IfOk result (IsComposed specs.now scopes.now) }
    ensures err { IfErr result (IsGroupFault scopes.now) }
{
    if !all_rise(scopes.as_slice()) {
        return Err(GroupFault::Scope);
    }
    match composed(alloc, specs.as_slice(), scopes.as_slice()) {
        Ok(group) => Ok(group),
        Err(_) => Err(GroupFault::Memory),
    }
}

/// The same of scopes that rise.
fn composed(alloc: Global, specs: &[Bound], scopes: &[List<u16>]) -> Result<Group, AllocError>
    requires some { 0 < length specs.now }
    requires lengths { HaveLengths specs.now scopes.now }
    requires rise { All IsStrictlyIncreasing scopes.now }
    ensures { IfOk result (IsComposed specs.now scopes.now) }
{
    let parts = copied_parts(alloc, specs, scopes)?;
    Group::of_parts(alloc, parts)
}
