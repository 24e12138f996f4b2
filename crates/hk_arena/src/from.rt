//! The rows that a row comes from: a set of rows, whose two halves are cells of a store.
ghost use Rattle.std.specs.Prelude.{◌≡◌, ℕ, ◌+◌, ◌<◌, ◌≤◌, ◌↔◌, length, slice_index, IsTrue, OnOk, All};
ghost use Rattle.std.specs.List.{Contains};
ghost use Rattle.hk_base.specs.Sets.{Has};
ghost use Rattle.hk_arena.specs.Changes.{with_row, with_from};
ghost use Rattle.hk_arena.specs.Diagrams.{IsRow, row_in};
ghost use Rattle.hk_arena.specs.Cells.{rows_in_set, table_of};
ghost use Rattle.hk_arena.specs.Kept.{IsKept};
ghost use Rattle.hk_arena.specs.inside.Writes.{IsRowWritten};

use crate::cells::write_set;
use crate::ids::RowId;
use crate::layout::Layout;
use hk_cells::Steps;
use hk_table::RowSet;
use hk_trail::Store;
use std::alloc::AllocError;
use std::sync::ledger::Ledger;

/// The set of some rows.
fn row_set(rows: &[u16]) -> RowSet
    requires { All (λ row. row < 256) rows.now }
    ensures { (row : ℕ) → Has result row ↔ Contains rows.now row }
{
    let mut set = RowSet::empty();
    for at in 0..rows.len() {
        set.insert(rows[at]);
    }
    set
}

/// The set of the rows that a row of the table that cells hold comes from.
#[inline]
pub(crate) fn read_from(store: &Store, layout: &Layout, row: RowId) -> RowSet
    requires kept { IsKept layout.now store.now.content }
    requires row { IsRow (table_of layout.now store.now.content) row }
    ensures { rows_in_set result ≡ (row_in (table_of layout.now store.now.content) row).from }
{
    let first = layout.first_bits(row.layer, row.at);
    let low = store.get_bits(store.bits_id(first));
    let high = store.get_bits(store.bits_id(first + 1));
    RowSet::of_halves(low, high)
}

/// Whether a row of the table that cells hold comes from another one.
pub(crate) fn is_from(store: &Store, layout: &Layout, row: RowId, old: u16) -> bool
    requires kept { IsKept layout.now store.now.content }
    requires row { IsRow (table_of layout.now store.now.content) row }
    ensures { IsTrue result ↔ Contains (row_in (table_of layout.now store.now.content) row).from old }
{
    if old >= 256 {
        return false;
    }
    read_from(store, layout, row).has(old)
}

/// Writes the rows that a row of the table that cells hold comes from: those of a set.
pub(crate) fn write_from_set<L: Ledger>(
    store: &mut Store,
    layout: &Layout,
    row: RowId,
    set: &RowSet,
    steps: &mut Steps<L>,
) -> Result<(), AllocError>
    requires kept { IsKept layout.now store.old.content }
    requires row { IsRow (table_of layout.now store.old.content) row }
    ensures ok { OnOk result (table_of layout.now store.new.content ≡ with_row row (with_from (rows_in_set set.now)) (table_of layout.now store.old.content)) }
    ensures written { IsRowWritten layout.now row 2 store.old store.new }
    ensures ticks { steps.new ≤ steps.old + 2 }
{
    let (low, high) = set.halves();
    let first = layout.first_bits(row.layer, row.at);
    write_set(store, first, low, steps)?;
    write_set(store, first + 1, high, steps)
}

/// Writes the rows that a row of the table that cells hold comes from.
pub(crate) fn write_from<L: Ledger>(
    store: &mut Store,
    layout: &Layout,
    row: RowId,
    old: &[u16],
    steps: &mut Steps<L>,
) -> Result<(), AllocError>
    requires kept { IsKept layout.now store.old.content }
    requires row { IsRow (table_of layout.now store.old.content) row }
    requires ascending { (k : ℕ) → k + 1 < length old.now → slice_index old.now k < slice_index old.now (k + 1) }
    requires within { All (λ from. from < layout.now.width) old.now }
    ensures ok { OnOk result (table_of layout.now store.new.content ≡ with_row row (with_from old.now) (table_of layout.now store.old.content)) }
    ensures written { IsRowWritten layout.now row 2 store.old store.new }
    ensures ticks { steps.new ≤ steps.old + 2 }
{
    layout.know();
    write_from_set(store, layout, row, &row_set(old), steps)
}
