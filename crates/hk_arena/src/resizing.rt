//! Layers that get another number of rows, whatever their rows hold.
ghost use Rattle.std.specs.Prelude.{◌≡◌, ◌+◌, ◌*◌, ◌<◌, ◌≤◌, length, map, OnOk, OnErr};
ghost use Rattle.hk_trail.specs.Places.{cell_count};
ghost use Rattle.hk_arena.specs.Changes.{AreEmptyFrom, IsChangedFrom, IsEmptyRow, IsResized};
ghost use Rattle.hk_arena.specs.Diagrams.{IsRow, row_in, values_of};
ghost use Rattle.hk_arena.specs.Numbers.{IsRaised};
ghost use Rattle.hk_arena.specs.Cells.{table_of};
ghost use Rattle.hk_arena.specs.Forms.{layer_count};
ghost use Rattle.hk_arena.specs.Kept.{IsKept};
ghost use Rattle.hk_arena.specs.inside.LayerWrites.{AreRowsWritten};
ghost use Rattle.hk_arena.specs.inside.Writes.{IsRowWritten};

use crate::cells::write_word;
use crate::entries::word_of;
use crate::ids::RowId;
use crate::layout::Layout;
use crate::rows::{read_rows, write_rows};
use hk_cells::Steps;
use hk_table::Entry;
use hk_trail::Store;
use std::alloc::AllocError;
use std::sync::ledger::Ledger;

/// Gives a layer of the table that cells hold so many rows. Where memory is refused it has as many as
/// before, and the first ones are as they were.
pub(crate) fn resize_layer<L: Ledger>(
    store: &mut Store,
    layout: &Layout,
    layer: u16,
    rows: u16,
    steps: &mut Steps<L>,
) -> Result<(), AllocError>
    requires kept { IsKept layout.now store.old.content }
    requires layer { layer < layer_count layout.now }
    requires width { rows ≤ layout.now.width }
    ensures kept { IsKept layout.now store.new.content }
    ensures table { OnOk result (IsResized layout.now.shape layer rows (table_of layout.now store.old.content) (table_of layout.now store.new.content)) }
    ensures refused { OnErr result (IsChangedFrom layer rows (table_of layout.now store.old.content) (table_of layout.now store.new.content)) }
    ensures stack { store.new.stack ≡ store.old.stack }
    ensures raised { IsRaised (1 + layout.now.width * length (values_of layout.now.shape layer)) (map cell_count store.old.written) (map cell_count store.new.written) }
    ensures ticks { steps.new ≤ steps.old + (1 + layout.now.width * length (values_of layout.now.shape layer)) }
{
    erase_rows(store, layout, layer, rows, steps)?;
    write_rows(store, layout, layer, rows, steps)?;
    Ok(())
}

/// Makes all entries of the rows of a layer from one on Gone.
fn erase_rows<L: Ledger>(
    store: &mut Store,
    layout: &Layout,
    layer: u16,
    rows: u16,
    steps: &mut Steps<L>,
) -> Result<(), AllocError>
    requires kept { IsKept layout.now store.old.content }
    requires layer { layer < layer_count layout.now }
    requires width { rows ≤ layout.now.width }
    ensures empty { OnOk result (AreEmptyFrom (table_of layout.now store.new.content) layer rows) }
    ensures written { AreRowsWritten layout.now layer rows (layout.now.width * length (values_of layout.now.shape layer)) store.old store.new }
    ensures ticks { steps.new ≤ steps.old + layout.now.width * length (values_of layout.now.shape layer) }
{
    for at in rows..read_rows(store, layout, layer) {
        erase_entries(store, layout, RowId { layer, at }, steps)?;
    }
    Ok(())
}

/// Makes all entries of a row Gone.
fn erase_entries<L: Ledger>(
    store: &mut Store,
    layout: &Layout,
    row: RowId,
    steps: &mut Steps<L>,
) -> Result<(), AllocError>
    requires kept { IsKept layout.now store.old.content }
    requires row { IsRow (table_of layout.now store.old.content) row }
    ensures empty { OnOk result (IsEmptyRow (row_in (table_of layout.now store.new.content) row)) }
    ensures written { IsRowWritten layout.now row (length (values_of layout.now.shape row.layer)) store.old store.new }
    ensures ticks { steps.new ≤ steps.old + length (values_of layout.now.shape row.layer) }
{
    let first = layout.first_word(row.layer, row.at) + 1;
    for at in 0..layout.value_count(row.layer) {
        write_word(store, first + at, word_of(Entry::Gone), steps)?;
    }
    Ok(())
}
