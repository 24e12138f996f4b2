//! The entries of a layer, read at once.
ghost use Rattle.std.specs.Prelude.{◌≡◌, ◌++◌, ◌<◌, OnOk};
ghost use Rattle.hk_table.specs.Tables.{flat_entries};
ghost use Rattle.hk_arena.specs.Diagrams.{IsRow, row_in, rows_of};
ghost use Rattle.hk_arena.specs.Cells.{table_of};
ghost use Rattle.hk_arena.specs.Forms.{layer_count};
ghost use Rattle.hk_arena.specs.Kept.{IsKept};

use crate::entries::entry_of;
use crate::ids::RowId;
use crate::layout::Layout;
use crate::rows::read_rows;
use hk_table::Entry;
use hk_trail::Store;
use std::alloc::AllocError;

/// Writes the entries of all rows of a layer of the table that cells hold, one row after the other.
pub(crate) fn read_entries(
    store: &Store,
    layout: &Layout,
    layer: u16,
    to: &mut Vec<Entry>,
) -> Result<(), AllocError>
    requires kept { IsKept layout.now store.now.content }
    requires layer { layer < layer_count layout.now }
    ensures { OnOk result (to.new.items ≡ flat_entries (rows_of (table_of layout.now store.now.content) layer)) }
{
    to.clear();
    for at in 0..read_rows(store, layout, layer) {
        push_entries(store, layout, RowId { layer, at }, to)?;
    }
    Ok(())
}

/// Adds the entries of a row of the table that cells hold.
fn push_entries(
    store: &Store,
    layout: &Layout,
    row: RowId,
    to: &mut Vec<Entry>,
) -> Result<(), AllocError>
    requires kept { IsKept layout.now store.now.content }
    requires row { IsRow (table_of layout.now store.now.content) row }
    ensures { OnOk result (to.new.items ≡ to.old.items ++ (row_in (table_of layout.now store.now.content) row).entries) }
{
    let first = layout.first_word(row.layer, row.at) + 1;
    for at in 0..layout.value_count(row.layer) {
        to.push(entry_of(store.get_word(store.word_id(first + at))))?;
    }
    Ok(())
}
