//! The shape of a group's tables.

ghost use Rattle.std.specs.Prelude.{◌≡◌, ◌<◌, length, map, slice_index, All, IfOk};
ghost use Rattle.hk_sweep.specs.Loose.{group_shape};

use hk_base::{List, pair};
use hk_group::Group;
use hk_table::Shape;
use std::alloc::{AllocError, Global};

/// Of sets for all variables, those of some variables.
fn sets_of(alloc: Global, vars: &[u16], sets: &[u128]) -> Result<List<u128>, AllocError>
    requires { All (λ variable. variable < length sets.now) vars.now }
    ensures { IfOk result (λ chosen. chosen ≡ map (λ variable. slice_index sets.now variable) vars.now) }
{
    let mut chosen = List::new(alloc);
    for variable in vars {
        chosen.push(sets[usize::from(*variable)])?;
    }
    Ok(chosen)
}

/// The shape of a group's tables, where the variables have these sets of values in the model.
pub fn shape_of(alloc: Global, group: &Group, sets: &[u128]) -> Result<Shape, AllocError>
    requires { All (λ variable. variable < length sets.now) group.now.vars }
    ensures { IfOk result (λ shape. shape ≡ group_shape group.now sets.now) }
{
    let (down, up) = group.shapes();
    let ((down, up), domains) = pair(
        pair(down.copy(), up.copy()),
        sets_of(alloc, group.vars(), sets),
    )?;
    Ok(Shape { down, up, domains })
}
