//! What the table that cells hold supports: the values at which reached rows have Live entries.
ghost use Rattle.std.specs.Prelude.{◌≡◌, ◌↔◌, ℕ, ◌<◌, length, slice_index};
ghost use Rattle.hk_base.specs.Sets.{Has};
ghost use Rattle.hk_table.specs.Keeps.{Supports};
ghost use Rattle.hk_table.specs.inside.Reaching.{EntryLeads, LayerLeads};
ghost use Rattle.hk_table.specs.TakenIn.{TakesIn};
ghost use Rattle.hk_arena.specs.Diagrams.{IsRow, row_in, rows_of, values_of};
ghost use Rattle.hk_arena.specs.Supporting.{AreLiveThere};
ghost use Rattle.hk_arena.specs.Cells.{table_of};
ghost use Rattle.hk_arena.specs.Kept.{IsKept};

use crate::entries::read_entry;
use crate::ids::{EntryId, RowId};
use crate::layout::Layout;
use crate::rows::read_rows;
use hk_table::{Found, RowSet, split_least};
use hk_trail::Store;

/// Writes the supported values of each layer but the last.
pub(crate) fn support(store: &Store, layout: &Layout, out: &mut [u128])
    requires kept { IsKept layout.now store.now.content }
    requires places { length out.old ≡ length layout.now.shape.domains }
    requires live { AreLiveThere layout.now.shape (table_of layout.now store.now.content) }
    ensures places { length out.new ≡ length layout.now.shape.domains }
    ensures supported { (level value : ℕ) → level < length layout.now.shape.domains → Has (slice_index out.new level) value ↔ Supports layout.now.shape (table_of layout.now store.now.content) level value }
{
    let mut reached = RowSet::empty();
    reached.insert(0);
    for layer in 0..layout.layers() - 1 {
        let found = layer_support(store, layout, layer, &reached);
        out[layer as usize] = found.values;
        reached = found.rows;
    }
}

/// The steps of Live entries of the reached rows of a layer.
fn layer_support(store: &Store, layout: &Layout, layer: u16, reached: &RowSet) -> Found
    requires kept { IsKept layout.now store.now.content }
    requires layer { layer < length layout.now.shape.domains }
    requires live { AreLiveThere layout.now.shape (table_of layout.now store.now.content) }
    ensures { TakesIn (LayerLeads (values_of layout.now.shape layer) (rows_of (table_of layout.now store.now.content) layer) reached.now (length (rows_of (table_of layout.now store.now.content) layer))) 0 0 result.values result.rows }
{
    let mut found = Found {
        values: 0,
        rows: RowSet::empty(),
    };
    layout.know();
    for at in 0..read_rows(store, layout, layer) {
        if reached.has(at) {
            row_support(store, layout, RowId { layer, at }, &mut found);
        }
    }
    found
}

/// Takes in the steps of the Live entries of a row.
fn row_support(store: &Store, layout: &Layout, row: RowId, found: &mut Found)
    requires kept { IsKept layout.now store.now.content }
    requires row { IsRow (table_of layout.now store.now.content) row }
    requires layer { row.layer < length layout.now.shape.domains }
    requires live { AreLiveThere layout.now.shape (table_of layout.now store.now.content) }
    ensures { TakesIn (EntryLeads (values_of layout.now.shape row.layer) (row_in (table_of layout.now store.now.content) row).entries) found.old.values found.old.rows found.new.values found.new.rows }
{
    let mut left = layout.domain(row.layer);
    layout.know();
    for at in 0..layout.values(row.layer) {
        let (value, rest) = split_least(left);
        left = rest;
        if let Some(next) = read_entry(store, layout, EntryId { row, at }).live() {
            found.add(value, next);
        }
    }
}
