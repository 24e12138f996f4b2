//! The down states of the rows that distinct steps lead to.
ghost use Rattle.std.specs.Prelude.{◌≡◌, ◌<◌, ◌^◌, All, length, OnOk};
ghost use Rattle.hk_group.specs.Groups.{group_down_shape};
ghost use Rattle.hk_kinds.specs.Distinct.{Ascends};
ghost use Rattle.hk_kinds.specs.Shapes.{HasShape};
ghost use Rattle.hk_layers.specs.Spots.{IsSpot};
ghost use Rattle.hk_layers.specs.inside.Leading.{joined_steps, rows_with};

use crate::spots::Spot;
use crate::uniting::row_of_place;
use hk_kinds::{StateView, States};
use std::alloc::AllocError;

/// Joins a step into the row that it leads to, or adds that row behind the others.
fn take_step(
    spot: &Spot<'_>,
    row: usize,
    step: &StateView<'_>,
    downs: &mut States,
) -> Result<(), AllocError>
    requires step { HasShape (group_down_shape spot.now.group) step.now }
    requires width { downs.old.width ≡ length (group_down_shape spot.now.group) }
    requires few { length downs.old.rows < 2 ^ 32 }
    ensures rows { OnOk result (downs.new.rows ≡ rows_with (group_down_shape spot.now.group) row step.now downs.old.rows) }
    ensures width { downs.new.width ≡ downs.old.width }
{
    if row < downs.len() {
        let (shape, _) = spot.group.shapes();
        downs.join_row(row, step, shape);
    } else {
        downs.push(step)?;
    }
    Ok(())
}

/// Writes the down states of the rows that distinct steps lead to. What `downs` holds before is taken out.
pub(crate) fn join_steps(
    spot: &Spot<'_>,
    steps: &States,
    downs: &mut States,
) -> Result<(), AllocError>
    requires spot { IsSpot spot.now }
    requires ascend { Ascends steps.now.rows }
    requires shapes { All (HasShape (group_down_shape spot.now.group)) steps.now.rows }
    requires few { length steps.now.rows < 2 ^ 32 }
    requires width { downs.old.width ≡ length (group_down_shape spot.now.group) }
    ensures rows { OnOk result (downs.new.rows ≡ joined_steps (group_down_shape spot.now.group) spot.now.width steps.now.rows) }
    ensures shapes { OnOk result (All (HasShape (group_down_shape spot.now.group)) downs.new.rows) }
    ensures width { downs.new.width ≡ downs.old.width }
{
    downs.clear();
    for place in 0..steps.len() {
        let row = row_of_place(spot.width, steps.len(), place);
        take_step(spot, row as usize, &steps.at(place), downs)?;
    }
    Ok(())
}
