//! Where the values of a layer's rows lead, and the rows of the next layer.
ghost use Rattle.std.specs.Prelude.{◌≡◌, ◌<◌, ◌≤◌, ◌^◌, ◌↔◌, ℕ, All, length, map, slice_index_or, OnOk};
ghost use Rattle.hk_base.specs.Sets.{Has};
ghost use Rattle.hk_group.specs.Groups.{group_down_shape};
ghost use Rattle.hk_kinds.specs.Distinct.{Ascends};
ghost use Rattle.hk_kinds.specs.Shapes.{HasShape};
ghost use Rattle.hk_layers.specs.Flat.{AreShaped, lead_of};
ghost use Rattle.hk_layers.specs.Layers.{next_halves, steps_of};
ghost use Rattle.hk_layers.specs.Spots.{IsSpot};
ghost use Rattle.hk_layers.specs.inside.Leading.{joined_steps};
ghost use Rattle.hk_layers.specs.inside.Marked.{AreMarked, arcs_of_marks, marks_of};
ghost use Rattle.hk_layers.specs.inside.Uniting.{IsUnited};

use crate::fronts::Front;
use crate::joining::join_steps;
use crate::leads::Lead;
use crate::marks::Marks;
use crate::spots::Spot;
use crate::uniting::{lead_all, unite_all};
use hk_kinds::{States, distinct};
use hk_table::RowSet;
use std::alloc::{AllocError, Global};

/// Writes the down states of the rows that distinct steps lead to, and the set of old rows that each comes
/// from. What `downs` and `froms` hold before is taken out.
fn fill(
    spot: &Spot<'_>,
    steps: &States,
    leads: &[Lead],
    sets: &[RowSet],
    downs: &mut States,
    froms: &mut Vec<RowSet>,
) -> Result<(), AllocError>
    requires spot { IsSpot spot.now }
    requires ascend { Ascends steps.now.rows }
    requires shapes { All (HasShape (group_down_shape spot.now.group)) steps.now.rows }
    requires few { length steps.now.rows < 2 ^ 32 }
    requires width { downs.old.width ≡ length (group_down_shape spot.now.group) }
    ensures rows { OnOk result (downs.new.rows ≡ joined_steps (group_down_shape spot.now.group) spot.now.width steps.now.rows) }
    ensures shapes { OnOk result (All (HasShape (group_down_shape spot.now.group)) downs.new.rows) }
    ensures froms { OnOk result (length froms.new.items ≡ length downs.new.rows) }
    ensures united { OnOk result ((c : ℕ) → c < length downs.new.rows → (row : ℕ) → Has (slice_index_or froms.new.items c 0) row ↔ IsUnited c leads.now sets.now row) }
    ensures width { downs.new.width ≡ downs.old.width }
{
    join_steps(spot, steps, downs)?;
    unite_all(downs.len(), leads, sets, froms)?;
    Ok(())
}

/// Finds where the values that were marked lead, and the rows that they lead to. What `leads`, `next`, `steps`
/// and `places` hold before is taken out.
pub(crate) fn lead_on(
    alloc: Global,
    spot: &Spot<'_>,
    old_rows: u16,
    marks: &Marks,
    leads: &mut Vec<Lead>,
    next: &mut Front,
    steps: &mut States,
    places: &mut Vec<usize>,
) -> Result<(), AllocError>
    requires spot { IsSpot spot.now }
    requires old_rows { old_rows ≤ 256 }
    requires marked { AreMarked spot.now old_rows marks.now }
    requires next { next.old.width ≡ marks.now.width }
    requires steps { steps.old.width ≡ marks.now.width }
    ensures leads { OnOk result (leads.new.items ≡ map (λ mark. lead_of spot.now.width (steps_of (arcs_of_marks (marks_of marks.now))) mark) (marks_of marks.now)) }
    ensures next { OnOk result (next.new.halves ≡ next_halves (group_down_shape spot.now.group) spot.now.width old_rows (arcs_of_marks (marks_of marks.now))) }
    ensures shape { OnOk result (AreShaped (group_down_shape spot.now.group) next.new.halves) }
    ensures within { OnOk result (length next.new.halves ≤ spot.now.width) }
    ensures next_width { next.new.width ≡ next.old.width }
    ensures steps_width { steps.new.width ≡ steps.old.width }
{
    distinct(alloc, &marks.candidates, steps, places)?;
    lead_all(spot, marks, steps, places.as_slice(), leads)?;
    match fill(
        spot,
        steps,
        leads.as_slice(),
        marks.sets.as_slice(),
        &mut next.downs,
        &mut next.froms,
    ) {
        Ok(()) => Ok(()),
        Err(refused) => {
            next.downs.clear();
            next.froms.clear();
            Err(refused)
        }
    }
}
