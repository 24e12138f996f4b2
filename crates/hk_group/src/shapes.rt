//! The shapes of the states of parts side by side.
ghost use Rattle.std.specs.Prelude.{◌≡◌, ◌++◌, IfOk, OnOk};
ghost use Rattle.hk_group.specs.Groups.{down_shape_of, up_shape_of};
ghost use Rattle.hk_spec.specs.Specifications.{kinds_of_properties};

use crate::parts::GroupPart;
use hk_kinds::Shape1;
use hk_spec::PropDecl;
use std::alloc::{AllocError, Global};

/// The shape of the down states of parts.
pub fn down_shape_of(alloc: Global, parts: &[GroupPart]) -> Result<Shape1, AllocError>
    ensures { IfOk result (λ shape. shape ≡ down_shape_of parts.now) }
{
    let mut shape = Shape1::new(alloc);
    for part in parts {
        if let Err(refused) = push_kinds(&mut shape, part.bound.spec.down.as_slice()) {
            drop(shape);
            return Err(refused);
        }
    }
    Ok(shape)
}

/// The shape of the up states of parts.
pub fn up_shape_of(alloc: Global, parts: &[GroupPart]) -> Result<Shape1, AllocError>
    ensures { IfOk result (λ shape. shape ≡ up_shape_of parts.now) }
{
    let mut shape = Shape1::new(alloc);
    for part in parts {
        if let Err(refused) = push_kinds(&mut shape, part.bound.spec.up.as_slice()) {
            drop(shape);
            return Err(refused);
        }
    }
    Ok(shape)
}

/// Puts the kinds of properties at the end of a shape.
fn push_kinds(shape: &mut Shape1, properties: &[PropDecl]) -> Result<(), AllocError>
    ensures { OnOk result (shape.new ≡ shape.old ++ kinds_of_properties properties.now) }
{
    for property in properties {
        shape.push(property.kind)?;
    }
    Ok(())
}
