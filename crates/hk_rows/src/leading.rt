//! What a diagram supports, where each of its Live entries names a row that is there. This is judged as a
//! test runs.

ghost use Rattle.std.specs.Prelude.{◌≡◌, ◌+◌, ◌<◌, ℕ, length, slice_index_or, IsTrue};
ghost use Rattle.hk_arena.specs.Diagrams.{IsRow, row_in, rows_of, values_of};
ghost use Rattle.hk_arena.specs.Supporting.{AreLiveThere};
ghost use Rattle.hk_arena.specs.declared.ids.RowId.{RowId};
ghost use Rattle.hk_table.specs.declared.entries.Entry.TheVariants.{Gone, Live};

use crate::supportable::leads_below;
use hk_arena::{Diagram, RowId};
use std::alloc::Global;

/// Whether the Live entries of a row name rows below this number.
fn row_leads(diagram: &Diagram, row: RowId, next: u16) -> bool
    requires row { IsRow diagram.now.table row }
    requires layer { row.layer < length diagram.now.shape.domains }
    ensures { IsTrue result → (at to : ℕ) → at < length (values_of diagram.now.shape row.layer) → slice_index_or (row_in diagram.now.table row).entries at Gone ≡ Live to → to < next }
{
    for at in 0..diagram.values(row.layer) {
        let entry = diagram.entry(diagram.entry_id(row, at));
        if !leads_below(entry, usize::from(next)) {
            return false;
        }
    }
    true
}

/// Whether those of all rows of a layer do.
fn layer_leads(diagram: &Diagram, layer: u16, next: u16) -> bool
    requires layer { layer < length diagram.now.shape.domains }
    ensures { IsTrue result → (row : RowId) (at to : ℕ) → row.layer ≡ layer → row.at < length (rows_of diagram.now.table layer) → at < length (values_of diagram.now.shape layer) → slice_index_or (row_in diagram.now.table row).entries at Gone ≡ Live to → to < next }
{
    for at in 0..diagram.rows(layer) {
        if !row_leads(diagram, diagram.row(layer, at), next) {
            return false;
        }
    }
    true
}

/// Whether the Live entries of each layer name rows of the next one.
fn layers_lead(diagram: &Diagram, last: u16) -> bool
    requires last { last ≡ length diagram.now.shape.domains }
    ensures { IsTrue result → AreLiveThere diagram.now.shape diagram.now.table }
{
    for layer in 0..last {
        if !layer_leads(diagram, layer, diagram.rows(layer + 1)) {
            return false;
        }
    }
    true
}

/// Whether a diagram can be asked what it supports, and supports these values, in places that held others.
pub fn supports(alloc: Global, diagram: &Diagram, last: u16, values: &[u128]) -> Option<bool>
    requires last { last ≡ length diagram.now.shape.domains }
{
    if !layers_lead(diagram, last) {
        return None;
    }
    let mut out = Vec::new(alloc);
    out.resize(usize::from(last), u128::MAX).ok()?;
    diagram.support_into(out.as_mut_slice());
    Some(out.as_slice() == values)
}
