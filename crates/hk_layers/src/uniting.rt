//! Where the values that were marked lead, and the old rows that the rows of the next layer come from.
ghost use Rattle.std.specs.Prelude.{◌≡◌, ◌<◌, ◌≤◌, ◌^◌, ◌↔◌, ◌⊎◌, ℕ, All, length, map, replicate, slice_index, slice_index_or, OnOk};
ghost use Rattle.hk_base.specs.Sets.{Has};
ghost use Rattle.hk_kinds.specs.Distinct.{IsPlaced, distinct_states};
ghost use Rattle.hk_layers.specs.Flat.{lead_of};
ghost use Rattle.hk_layers.specs.Layers.{row_for};
ghost use Rattle.hk_layers.specs.Spots.{IsSpot};
ghost use Rattle.hk_layers.specs.declared.marks.Fate.{Fate};
ghost use Rattle.hk_layers.specs.declared.marks.Fate.TheVariants as fate;
ghost use Rattle.hk_layers.specs.inside.Marked.{marks_of};
ghost use Rattle.hk_layers.specs.inside.Uniting.{IsUnited, SendsTo, lead_of_fate};

use crate::leads::Lead;
use crate::marks::{Fate, Marks};
use crate::spots::Spot;
use hk_kinds::States;
use hk_table::RowSet;
use std::alloc::AllocError;

/// The row of the next layer for the step at a place, among so many steps.
pub(crate) fn row_of_place(width: u16, count: usize, place: usize) -> u16
    requires some { 0 < width }
    requires width { width ≤ 256 }
    requires few { count < 2 ^ 32 }
    requires place { place < count }
    ensures row { result ≡ row_for width count place }
{
    let wide = width as usize;
    if count <= wide {
        place as u16
    } else {
        (place * wide / count) as u16
    }
}

/// Where a value leads, by what becomes of it.
fn lead_by(width: u16, count: usize, places: &[usize], kept: Fate) -> Lead
    requires some { 0 < width }
    requires width { width ≤ 256 }
    requires few { count < 2 ^ 32 }
    requires within { (number : ℕ) → number < length places.now → slice_index places.now number < count }
    requires there { (number : ℕ) → kept ≡ fate.On number → number < length places.now }
    ensures lead { result ≡ lead_of_fate width count places.now kept }
{
    match kept {
        Fate::Gone => Lead::Gone,
        Fate::Cut => Lead::Cut,
        Fate::On(number) => Lead::To(row_of_place(width, count, places[number as usize])),
    }
}

/// Where values lead, by what becomes of them.
fn lead_fates(
    width: u16,
    count: usize,
    places: &[usize],
    fates: &[Fate],
    leads: &mut Vec<Lead>,
) -> Result<(), AllocError>
    requires some { 0 < width }
    requires width { width ≤ 256 }
    requires few { count < 2 ^ 32 }
    requires within { (number : ℕ) → number < length places.now → slice_index places.now number < count }
    requires there { All (λ (kept : Fate). (number : ℕ) → kept ≡ fate.On number → number < length places.now) fates.now }
    ensures leads { OnOk result (leads.new.items ≡ map (lead_of_fate width count places.now) fates.now) }
{
    leads.clear();
    for i in 0..fates.len() {
        let lead = lead_by(width, count, places, fates[i]);
        leads.push(lead)?;
    }
    Ok(())
}

/// Where the values that were marked lead, of the places of candidates among the steps. What `leads` holds
/// before is taken out.
pub(crate) fn lead_all(
    spot: &Spot<'_>,
    marks: &Marks,
    steps: &States,
    places: &[usize],
    leads: &mut Vec<Lead>,
) -> Result<(), AllocError>
    requires spot { IsSpot spot.now }
    requires placed { IsPlaced marks.now.candidates steps.now.rows places.now }
    requires steps { steps.now.rows ≡ distinct_states marks.now.candidates }
    requires few { length marks.now.candidates < 2 ^ 32 }
    requires there { All (λ (kept : Fate). (number : ℕ) → kept ≡ fate.On number → number < length marks.now.candidates) marks.now.fates }
    requires long { length marks.now.sets ≡ length marks.now.fates }
    ensures leads { OnOk result (leads.new.items ≡ map (λ mark. lead_of spot.now.width steps.now.rows mark) (marks_of marks.now)) }
{
    lead_fates(
        spot.width,
        steps.len(),
        places,
        marks.fates.as_slice(),
        leads,
    )?;
    Ok(())
}

/// Takes the old rows of a value into those of the row that it leads to, where that one is there.
fn unite_lead(lead: Lead, set: &RowSet, froms: &mut [RowSet])
    ensures long { length froms.new ≡ length froms.old }
    ensures united { (c : ℕ) → c < length froms.old → (row : ℕ) → Has (slice_index_or froms.new c 0) row ↔ (Has (slice_index_or froms.old c 0) row ⊎ SendsTo c lead set.now row) }
{
    match lead {
        Lead::To(c) => {
            if (c as usize) < froms.len() {
                froms[c as usize].unite(set);
            }
        }
        Lead::Gone => {}
        Lead::Cut => {}
    }
}

/// Takes the old rows of each value into those of the row that it leads to.
fn unite_leads(leads: &[Lead], sets: &[RowSet], froms: &mut [RowSet])
    ensures long { length froms.new ≡ length froms.old }
    ensures united { (c : ℕ) → c < length froms.old → (row : ℕ) → Has (slice_index_or froms.new c 0) row ↔ (Has (slice_index_or froms.old c 0) row ⊎ IsUnited c leads.now sets.now row) }
{
    for i in 0..leads.len() {
        if i < sets.len() {
            unite_lead(leads[i], &sets[i], froms);
        }
    }
}

/// Becomes so many sets of no row.
fn clear_sets(rows: usize, froms: &mut Vec<RowSet>) -> Result<(), AllocError>
    ensures froms { OnOk result (froms.new.items ≡ replicate rows 0) }
{
    froms.clear();
    for _made in 0..rows {
        froms.push(RowSet::empty())?;
    }
    Ok(())
}

/// For each row of the next layer, the set of old rows that it comes from. What `froms` holds before is taken
/// out.
pub(crate) fn unite_all(
    rows: usize,
    leads: &[Lead],
    sets: &[RowSet],
    froms: &mut Vec<RowSet>,
) -> Result<(), AllocError>
    requires few { rows ≤ 256 }
    ensures froms { OnOk result (length froms.new.items ≡ rows) }
    ensures united { OnOk result ((c : ℕ) → c < rows → (row : ℕ) → Has (slice_index_or froms.new.items c 0) row ↔ IsUnited c leads.now sets.now row) }
{
    clear_sets(rows, froms)?;
    unite_leads(leads, sets, froms.as_mut_slice());
    Ok(())
}
