//! The states of rows, in the cells of a store.
ghost use Rattle.std.specs.Prelude.{◌≡◌, ◌+◌, ◌*◌, ◌≤◌, None, Some, length, IsTrue, IsFalse, OnOk};
ghost use Rattle.hk_kinds.specs.Shapes.{HasShape};
ghost use Rattle.hk_arena.specs.Changes.{with_row, with_down, with_up};
ghost use Rattle.hk_arena.specs.Diagrams.{IsRow, row_in};
ghost use Rattle.hk_arena.specs.Cells.{table_of};
ghost use Rattle.hk_arena.specs.Kept.{IsKept};
ghost use Rattle.hk_arena.specs.inside.Writes.{IsRowWritten};

use crate::cells::write_word;
use crate::ids::RowId;
use crate::layout::Layout;
use crate::states::{read_state, write_state};
use hk_cells::Steps;
use hk_kinds::{State, StateView};
use hk_trail::Store;
use std::alloc::AllocError;
use std::sync::ledger::Ledger;

/// Reads the down state of a row of the table that cells hold.
pub(crate) fn read_down(store: &Store, layout: &Layout, row: RowId, to: &mut State)
    requires kept { IsKept layout.now store.now.content }
    requires row { IsRow (table_of layout.now store.now.content) row }
    requires shape { HasShape layout.now.shape.down to.old }
    ensures state { to.new ≡ (row_in (table_of layout.now store.now.content) row).down }
    ensures shape { HasShape layout.now.shape.down to.new }
{
    layout.know();
    let num = layout.first_num(row.layer, row.at);
    let set = layout.first_bits(row.layer, row.at) + 2;
    read_state(store, layout.down(), num, set, to);
}

/// Reads the up state of a row of the table that cells hold, and says whether it has one.
pub(crate) fn read_up(store: &Store, layout: &Layout, row: RowId, to: &mut State) -> bool
    requires kept { IsKept layout.now store.now.content }
    requires row { IsRow (table_of layout.now store.now.content) row }
    requires shape { HasShape layout.now.shape.up to.old }
    ensures some { IsTrue result → (row_in (table_of layout.now store.now.content) row).up ≡ Some to.new }
    ensures none { IsFalse result → ((row_in (table_of layout.now store.now.content) row).up ≡ None) × (to.new ≡ to.old) }
    ensures shape { HasShape layout.now.shape.up to.new }
{
    layout.know();
    let word = layout.first_word(row.layer, row.at);
    if store.get_word(store.word_id(word)) == 0 {
        return false;
    }
    let num = layout.first_num(row.layer, row.at) + layout.up_num();
    let set = layout.first_bits(row.layer, row.at) + layout.up_set();
    read_state(store, layout.up(), num, set, to);
    true
}

/// Writes the down state of a row of the table that cells hold.
pub(crate) fn write_down<L: Ledger>(
    store: &mut Store,
    layout: &Layout,
    row: RowId,
    value: &StateView<'_>,
    steps: &mut Steps<L>,
) -> Result<(), AllocError>
    requires kept { IsKept layout.now store.old.content }
    requires row { IsRow (table_of layout.now store.old.content) row }
    requires shape { HasShape layout.now.shape.down value.now }
    ensures ok { OnOk result (table_of layout.now store.new.content ≡ with_row row (with_down value.now) (table_of layout.now store.old.content)) }
    ensures written { IsRowWritten layout.now row (2 * length value.now) store.old store.new }
    ensures ticks { steps.new ≤ steps.old + 2 * length value.now }
{
    layout.know();
    let num = layout.first_num(row.layer, row.at);
    let set = layout.first_bits(row.layer, row.at) + 2;
    write_state(store, layout.down(), num, set, value, steps)
}

/// Writes the up state of a row of the table that cells hold.
pub(crate) fn write_up<L: Ledger>(
    store: &mut Store,
    layout: &Layout,
    row: RowId,
    value: &StateView<'_>,
    steps: &mut Steps<L>,
) -> Result<(), AllocError>
    requires kept { IsKept layout.now store.old.content }
    requires row { IsRow (table_of layout.now store.old.content) row }
    requires shape { HasShape layout.now.shape.up value.now }
    ensures ok { OnOk result (table_of layout.now store.new.content ≡ with_row row (with_up (Some value.now)) (table_of layout.now store.old.content)) }
    ensures written { IsRowWritten layout.now row (1 + 2 * length value.now) store.old store.new }
    ensures ticks { steps.new ≤ steps.old + (1 + 2 * length value.now) }
{
    layout.know();
    let num = layout.first_num(row.layer, row.at) + layout.up_num();
    let set = layout.first_bits(row.layer, row.at) + layout.up_set();
    write_word(store, layout.first_word(row.layer, row.at), 1, steps)?;
    write_state(store, layout.up(), num, set, value, steps)
}

/// Takes the up state from a row of the table that cells hold.
pub(crate) fn erase_up<L: Ledger>(
    store: &mut Store,
    layout: &Layout,
    row: RowId,
    steps: &mut Steps<L>,
) -> Result<(), AllocError>
    requires kept { IsKept layout.now store.old.content }
    requires row { IsRow (table_of layout.now store.old.content) row }
    ensures ok { OnOk result (table_of layout.now store.new.content ≡ with_row row (with_up None) (table_of layout.now store.old.content)) }
    ensures written { IsRowWritten layout.now row 1 store.old store.new }
    ensures ticks { steps.new ≤ steps.old + 1 }
{
    write_word(store, layout.first_word(row.layer, row.at), 0, steps)
}
