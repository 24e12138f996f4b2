//! The way up by one layer: the entries of its rows are judged, and their up states found, from those of the
//! rows below.
ghost use Rattle.std.specs.Prelude.{◌≡◌, ◌<◌, ◌≤◌, ◌+◌, ◌*◌, ◌++◌, ℕ, List, None, All, length, map, take, drop, slice_index_or, OnOk};
ghost use Rattle.hk_group.specs.Groups.{group_down_shape, group_up_shape, group_passes};
ghost use Rattle.hk_kinds.specs.Shapes.{HasShape};
ghost use Rattle.hk_kinds.specs.declared.properties.Prop.{Prop};
ghost use Rattle.hk_layers.specs.Flat.{AreRowsOf, AreShaped, AreShapedUps, flat_leads, ups_of};
ghost use Rattle.hk_layers.specs.Layers.{Half, Mark, judged_by};
ghost use Rattle.hk_layers.specs.Spots.{IsSpot, finished_at};
ghost use Rattle.hk_layers.specs.Climbing.{RisesAt};
ghost use Rattle.hk_layers.specs.inside.Rising.{join_ups, entry_of_lead, entry_step, row_entries, row_up, layer_entries, layer_ups};
ghost use Rattle.hk_table.specs.Tables.{PlainRow};
ghost use Rattle.hk_text.specs.Sets.{members};

use crate::fronts::Front;
use crate::leads::Lead;
use crate::rising::Rising;
use crate::spots::Spot;
use crate::ups::Ups;
use hk_kinds::{StateView, States};
use hk_table::{Entry, split_least, value_count};
use std::alloc::AllocError;

/// The entry of a value that leads somewhere from a row; the up step of a Live one is taken in.
fn judge(
    spot: &Spot<'_>,
    value: u8,
    down: &StateView<'_>,
    lead: Lead,
    below: &Ups,
    rising: &mut Rising,
) -> Entry
    requires spot { IsSpot spot.now }
    requires value { value < 128 }
    requires down { HasShape (group_down_shape spot.now.group) down.now }
    requires below { AreShapedUps (group_up_shape spot.now.group) below.now.ups }
    requires rises { RisesAt spot.now rising.old }
    ensures entry { result ≡ entry_of_lead spot.now below.now.ups down.now value lead }
    ensures up { rising.new.up ≡ join_ups (group_up_shape spot.now.group) rising.old.up (entry_step spot.now below.now.ups value result) }
    ensures rises { RisesAt spot.now rising.new }
{
    match lead {
        Lead::Gone => Entry::Gone,
        Lead::Cut => Entry::Cut,
        Lead::To(c) => judge_row(spot, value, down, c, below, rising),
    }
}

/// The same of a value that leads to this row below.
fn judge_row(
    spot: &Spot<'_>,
    value: u8,
    down: &StateView<'_>,
    c: u16,
    below: &Ups,
    rising: &mut Rising,
) -> Entry
    requires spot { IsSpot spot.now }
    requires value { value < 128 }
    requires down { HasShape (group_down_shape spot.now.group) down.now }
    requires below { AreShapedUps (group_up_shape spot.now.group) below.now.ups }
    requires rises { RisesAt spot.now rising.old }
    ensures entry { result ≡ judged_by (group_passes spot.now.group spot.now.layer value spot.now.best down.now) (slice_index_or below.now.ups c None) c }
    ensures up { rising.new.up ≡ join_ups (group_up_shape spot.now.group) rising.old.up (entry_step spot.now below.now.ups value result) }
    ensures rises { RisesAt spot.now rising.new }
{
    let Some(up) = below.at(c as usize) else {
        return Entry::Dead(c);
    };
    let passes = spot
        .group
        .passes_view(spot.layer as usize, value, down, &up, spot.best);
    if passes {
        rising.take_in(spot, value, &up);
        Entry::Live(c)
    } else {
        Entry::Dead(c)
    }
}

/// Adds the entries of a row at the end, and finds its up state.
fn raise_row(
    spot: &Spot<'_>,
    down: &StateView<'_>,
    leads: &[Lead],
    below: &Ups,
    entries: &mut Vec<Entry>,
    rising: &mut Rising,
) -> Result<(), AllocError>
    requires spot { IsSpot spot.now }
    requires down { HasShape (group_down_shape spot.now.group) down.now }
    requires leads { length leads.now ≡ length (members spot.now.values) }
    requires below { AreShapedUps (group_up_shape spot.now.group) below.now.ups }
    requires width { rising.old.width ≡ length (group_up_shape spot.now.group) }
    ensures entries { OnOk result (entries.new.items ≡ entries.old.items ++ row_entries spot.now below.now.ups down.now (members spot.now.values) leads.now) }
    ensures up { OnOk result (rising.new.up ≡ row_up spot.now below.now.ups (members spot.now.values) (row_entries spot.now below.now.ups down.now (members spot.now.values) leads.now)) }
    ensures rises { RisesAt spot.now rising.new }
{
    rising.clear();
    let mut left = spot.values;
    for at in 0..leads.len() {
        let (value, rest) = split_least(left);
        left = rest;
        let entry = judge(spot, value, down, leads[at], below, rising);
        entries.push(entry)?;
    }
    Ok(())
}

/// The leads of one row, of those of rows that have so many each.
fn row_leads(leads: &[Lead], i: usize, count: usize) -> &[Lead]
    requires { i * count + count ≤ length leads.now }
    ensures { result.now ≡ take count (drop (i * count) leads.now) }
{
    let first = i * count;
    &leads[first..first + count]
}

/// The entries of rows with these down states, and their up states.
fn raise_rows(
    spot: &Spot<'_>,
    downs: &States,
    leads: &[Lead],
    below: &Ups,
    entries: &mut Vec<Entry>,
    ups: &mut Ups,
    rising: &mut Rising,
) -> Result<(), AllocError>
    requires spot { IsSpot spot.now }
    requires downs { All (HasShape (group_down_shape spot.now.group)) downs.now.rows }
    requires few { length downs.now.rows ≤ 256 }
    requires leads { length leads.now ≡ length downs.now.rows * length (members spot.now.values) }
    requires below { AreShapedUps (group_up_shape spot.now.group) below.now.ups }
    requires ups { ups.old.width ≡ length (group_up_shape spot.now.group) }
    requires rising { rising.old.width ≡ length (group_up_shape spot.now.group) }
    ensures entries { OnOk result (entries.new.items ≡ layer_entries spot.now below.now.ups (members spot.now.values) downs.now.rows leads.now) }
    ensures ups { OnOk result (ups.new.ups ≡ layer_ups spot.now below.now.ups (members spot.now.values) downs.now.rows leads.now) }
    ensures shapes { OnOk result (AreShapedUps (group_up_shape spot.now.group) ups.new.ups) }
    ensures ups_width { ups.new.width ≡ ups.old.width }
    ensures rising_width { rising.new.width ≡ rising.old.width }
{
    entries.clear();
    ups.clear();
    let count = value_count(spot.values) as usize;
    for i in 0..downs.len() {
        let row = row_leads(leads, i, count);
        raise_row(spot, &downs.at(i), row, below, entries, rising)?;
        rising.push_to(ups)?;
    }
    Ok(())
}

/// The way up by one layer: judges the entries of its rows, which lead to rows with these up states, and finds
/// their own up states. What `entries`, `ups` and `rising` hold before is taken out.
pub fn up_layer(
    spot: &Spot<'_>,
    front: &Front,
    leads: &[Lead],
    below: &Ups,
    entries: &mut Vec<Entry>,
    ups: &mut Ups,
    rising: &mut Rising,
) -> Result<(), AllocError>
    requires spot { IsSpot spot.now }
    requires front { AreShaped (group_down_shape spot.now.group) front.now.halves }
    requires few { length front.now.halves ≤ 256 }
    requires leads { length leads.now ≡ length front.now.halves * length (members spot.now.values) }
    requires below { AreShapedUps (group_up_shape spot.now.group) below.now.ups }
    requires ups { ups.old.width ≡ length (group_up_shape spot.now.group) }
    requires rising { rising.old.width ≡ length (group_up_shape spot.now.group) }
    ensures up { (marks : Half → ℕ → Mark) (steps : List (List Prop)) (next : List PlainRow) → leads.now ≡ flat_leads spot.now.width steps marks (members spot.now.values) front.now.halves → ups_of next ≡ below.now.ups → OnOk result (AreRowsOf (map (finished_at spot.now marks steps next) front.now.halves) entries.new.items ups.new.ups) }
    ensures shapes { OnOk result (AreShapedUps (group_up_shape spot.now.group) ups.new.ups) }
    ensures ups_width { ups.new.width ≡ ups.old.width }
    ensures rising_width { rising.new.width ≡ rising.old.width }
{
    raise_rows(spot, &front.downs, leads, below, entries, ups, rising)?;
    Ok(())
}
