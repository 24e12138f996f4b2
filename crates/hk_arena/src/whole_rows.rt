//! Rows of the table that cells hold, written at once.
ghost use Rattle.std.specs.Prelude.{◌≡◌, ◌+◌, ◌*◌, ◌≤◌, length, IfSome, OnOk};
ghost use Rattle.hk_kinds.specs.Shapes.{HasShape};
ghost use Rattle.hk_arena.specs.Changes.{row_made, with_row, with_up};
ghost use Rattle.hk_arena.specs.inside.Writes.{with_entries, IsRowWritten};
ghost use Rattle.hk_arena.specs.Diagrams.{IsRow, values_of};
ghost use Rattle.hk_arena.specs.Cells.{rows_in_set, table_of};
ghost use Rattle.hk_arena.specs.Kept.{IsKept};

use crate::cells::write_word;
use crate::entries::word_of;
use crate::from::write_from_set;
use crate::ids::RowId;
use crate::layout::Layout;
use crate::row_states::{erase_up, write_down, write_up};
use hk_cells::Steps;
use hk_kinds::StateView;
use hk_table::{Entry, RowSet};
use hk_trail::Store;
use std::alloc::AllocError;
use std::sync::ledger::Ledger;

/// Writes all entries of a row of the table that cells hold.
fn write_entries<L: Ledger>(
    store: &mut Store,
    layout: &Layout,
    row: RowId,
    entries: &[Entry],
    steps: &mut Steps<L>,
) -> Result<(), AllocError>
    requires kept { IsKept layout.now store.old.content }
    requires row { IsRow (table_of layout.now store.old.content) row }
    requires entries { length entries.now ≡ length (values_of layout.now.shape row.layer) }
    ensures ok { OnOk result (table_of layout.now store.new.content ≡ with_row row (with_entries entries.now) (table_of layout.now store.old.content)) }
    ensures written { IsRowWritten layout.now row (length entries.now) store.old store.new }
    ensures ticks { steps.new ≤ steps.old + length entries.now }
{
    let first = layout.first_word(row.layer, row.at) + 1;
    for at in 0..entries.len() {
        write_word(store, first + at as u32, word_of(entries[at]), steps)?;
    }
    Ok(())
}

/// Writes the up state of a row of the table that cells hold, or takes it.
fn write_any_up<L: Ledger>(
    store: &mut Store,
    layout: &Layout,
    row: RowId,
    up: Option<StateView<'_>>,
    steps: &mut Steps<L>,
) -> Result<(), AllocError>
    requires kept { IsKept layout.now store.old.content }
    requires row { IsRow (table_of layout.now store.old.content) row }
    requires shape { IfSome up (HasShape layout.now.shape.up) }
    ensures ok { OnOk result (table_of layout.now store.new.content ≡ with_row row (with_up up.entry) (table_of layout.now store.old.content)) }
    ensures written { IsRowWritten layout.now row (1 + 2 * length layout.now.shape.up) store.old store.new }
    ensures ticks { steps.new ≤ steps.old + (1 + 2 * length layout.now.shape.up) }
{
    match up {
        Some(state) => write_up(store, layout, row, &state, steps)?,
        None => erase_up(store, layout, row, steps)?,
    }
    Ok(())
}

/// Writes all parts of a row of the table that cells hold.
pub(crate) fn write_row<L: Ledger>(
    store: &mut Store,
    layout: &Layout,
    row: RowId,
    down: &StateView<'_>,
    up: Option<StateView<'_>>,
    from: &RowSet,
    entries: &[Entry],
    steps: &mut Steps<L>,
) -> Result<(), AllocError>
    requires kept { IsKept layout.now store.old.content }
    requires row { IsRow (table_of layout.now store.old.content) row }
    requires down { HasShape layout.now.shape.down down.now }
    requires up { IfSome up (HasShape layout.now.shape.up) }
    requires entries { length entries.now ≡ length (values_of layout.now.shape row.layer) }
    ensures ok { OnOk result (table_of layout.now store.new.content ≡ with_row row (λ old. row_made down.now up.entry (rows_in_set from.now) entries.now) (table_of layout.now store.old.content)) }
    ensures written { IsRowWritten layout.now row (3 + 2 * length layout.now.shape.down + 2 * length layout.now.shape.up + length entries.now) store.old store.new }
    ensures ticks { steps.new ≤ steps.old + (3 + 2 * length layout.now.shape.down + 2 * length layout.now.shape.up + length entries.now) }
{
    write_down(store, layout, row, down, steps)?;
    write_any_up(store, layout, row, up, steps)?;
    write_from_set(store, layout, row, from, steps)?;
    write_entries(store, layout, row, entries, steps)?;
    Ok(())
}
