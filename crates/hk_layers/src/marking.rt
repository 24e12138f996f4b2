//! The marks of a layer's rows, on the way down.
ghost use Rattle.std.specs.Prelude.{◌≡◌, ◌<◌, ◌≤◌, ◌+◌, ◌*◌, ◌^◌, ◌==◌, ◌∷◌, ◌++◌, ℕ, List, [], All, length, OnOk};
ghost use Rattle.std.specs.Int.{bit_at};
ghost use Rattle.hk_base.specs.Sets.{Has};
ghost use Rattle.hk_group.specs.Groups.{group_down_shape, group_up_shape, group_passes};
ghost use Rattle.hk_kinds.specs.Shapes.{HasShape};
ghost use Rattle.hk_kinds.specs.Tops.{top_state};
ghost use Rattle.hk_table.specs.Tables.{PlainRow, flat_entries};
ghost use Rattle.hk_text.specs.Sets.{members, members_below};
ghost use Rattle.hk_layers.specs.Falling.{AreLong};
ghost use Rattle.hk_layers.specs.Flat.{AreShaped};
ghost use Rattle.hk_layers.specs.Spots.{IsSpot, mark_at};
ghost use Rattle.hk_layers.specs.inside.Marked.{AreMarked, flat_marks, marks_of};
ghost use Rattle.hk_layers.specs.inside.Marking.{mark_from, row_marks};
ghost use Rattle.hk_layers.specs.inside.Targets.{lists_of};

use crate::fronts::Front;
use crate::marks::Marks;
use crate::olds::read_targets;
use crate::spots::Spot;
use hk_kinds::StateView;
use hk_table::{Entry, RowSet, split_least};
use std::alloc::AllocError;

/// Whether the values that are left at a layer have a value.
#[inline]
fn is_left(spot: &Spot<'_>, value: u8) -> bool
    requires { value < 128 }
    ensures { result ≡ (bit_at spot.now.domain value == 1) }
{
    (spot.domain >> value) & 1 == 1
}

/// Whether the test of a layer's value holds between two states.
#[inline]
fn passes_at(spot: &Spot<'_>, value: u8, down: &StateView<'_>, up: &StateView<'_>) -> bool
    requires spot { IsSpot spot.now }
    requires value { value < 128 }
    requires down { HasShape (group_down_shape spot.now.group) down.now }
    requires up { HasShape (group_up_shape spot.now.group) up.now }
    ensures { result ≡ group_passes spot.now.group spot.now.layer value spot.now.best down.now up.now }
{
    spot.group
        .passes_view(spot.layer as usize, value, down, up, spot.best)
}

/// Adds the mark of a value that leads to a set of old rows from a down state. No new candidate where its
/// step is one of the candidates from `first` on.
fn mark_value(
    spot: &Spot<'_>,
    top_up: &StateView<'_>,
    old_rows: u16,
    value: u8,
    down: &StateView<'_>,
    first: usize,
    set: &RowSet,
    marks: &mut Marks,
) -> Result<(), AllocError>
    requires spot { IsSpot spot.now }
    requires top_up { top_up.now ≡ top_state (group_up_shape spot.now.group) }
    requires value { value < 128 }
    requires down { HasShape (group_down_shape spot.now.group) down.now }
    requires few { length marks.old.candidates + 1 < 2 ^ 32 }
    requires marked { AreMarked spot.now old_rows marks.old }
    requires within { (c : ℕ) → Has set.now c → c < old_rows }
    ensures marks { OnOk result (marks_of marks.new ≡ marks_of marks.old ++ mark_from spot.now down.now value (members_below set.now 256) ∷ []) }
    ensures marked { OnOk result (AreMarked spot.now old_rows marks.new) }
    ensures candidates { length marks.new.candidates ≤ length marks.old.candidates + 1 }
    ensures width { marks.new.width ≡ marks.old.width }
    ensures long { OnOk result (length marks.new.fates ≡ length marks.old.fates + 1) }
{
    if set.is_empty() {
        return marks.stop(spot, old_rows, false, set);
    }
    if !is_left(spot, value) {
        return marks.stop(spot, old_rows, false, set);
    }
    if passes_at(spot, value, down, top_up) {
        marks.go_on(spot, old_rows, value, down, first, set)
    } else {
        marks.stop(spot, old_rows, true, set)
    }
}

/// Adds the marks of a row's values, which lead to these sets of old rows.
fn mark_row(
    spot: &Spot<'_>,
    top_up: &StateView<'_>,
    old_rows: u16,
    down: &StateView<'_>,
    sets: &[RowSet],
    marks: &mut Marks,
) -> Result<(), AllocError>
    requires spot { IsSpot spot.now }
    requires top_up { top_up.now ≡ top_state (group_up_shape spot.now.group) }
    requires down { HasShape (group_down_shape spot.now.group) down.now }
    requires sets { length sets.now ≡ length (members spot.now.values) }
    requires within { All (λ (set : ℕ). (c : ℕ) → Has set c → c < old_rows) sets.now }
    requires few { length marks.old.candidates + length sets.now < 2 ^ 32 }
    requires marked { AreMarked spot.now old_rows marks.old }
    ensures marks { OnOk result (marks_of marks.new ≡ marks_of marks.old ++ row_marks spot.now down.now (members spot.now.values) (lists_of sets.now)) }
    ensures marked { OnOk result (AreMarked spot.now old_rows marks.new) }
    ensures candidates { length marks.new.candidates ≤ length marks.old.candidates + length sets.now }
    ensures width { marks.new.width ≡ marks.old.width }
    ensures long { OnOk result (length marks.new.fates ≡ length marks.old.fates + length (members spot.now.values)) }
{
    let first = marks.count();
    let mut left = spot.values;
    for at in 0..sets.len() {
        let (value, rest) = split_least(left);
        left = rest;
        mark_value(spot, top_up, old_rows, value, down, first, &sets[at], marks)?;
    }
    Ok(())
}

/// Marks the values of all rows of a layer, over the entries of all old rows, which lead to so many rows.
/// What `marks` and `sets` hold before is taken out.
pub(crate) fn mark_layer(
    spot: &Spot<'_>,
    top_up: &StateView<'_>,
    front: &Front,
    olds: &[Entry],
    count: u16,
    marks: &mut Marks,
    sets: &mut Vec<RowSet>,
) -> Result<(), AllocError>
    requires spot { IsSpot spot.now }
    requires top_up { top_up.now ≡ top_state (group_up_shape spot.now.group) }
    requires front { AreShaped (group_down_shape spot.now.group) front.now.halves }
    requires few { length front.now.halves ≤ 256 }
    requires count { count ≤ 256 }
    requires marks { marks.old.width ≡ length (group_down_shape spot.now.group) }
    ensures marks { (old old_next : List PlainRow) → AreLong (length (members spot.now.values)) old → length old_next ≡ count → olds.now ≡ flat_entries old → OnOk result (marks_of marks.new ≡ flat_marks (mark_at spot.now old old_next) (members spot.now.values) front.now.halves) }
    ensures marked { OnOk result (AreMarked spot.now count marks.new) }
    ensures long { OnOk result (length marks.new.fates ≡ length front.now.halves * length (members spot.now.values)) }
    ensures width { marks.new.width ≡ marks.old.width }
{
    marks.clear();
    for i in 0..front.len() {
        read_targets(spot, olds, count, front.from(i), sets)?;
        mark_row(spot, top_up, count, &front.down(i), sets.as_slice(), marks)?;
    }
    Ok(())
}
