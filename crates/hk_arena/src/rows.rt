//! How many rows each layer has.
ghost use Rattle.std.specs.Prelude.{◌≡◌, ℕ, ◌+◌, ◌<◌, ◌≤◌, length, map, OnOk, OnErr};
ghost use Rattle.hk_trail.specs.Places.{cell_count};
ghost use Rattle.hk_arena.specs.Changes.{AreEmptyFrom, IsResized};
ghost use Rattle.hk_arena.specs.Diagrams.{rows_of};
ghost use Rattle.hk_arena.specs.Numbers.{IsRaised};
ghost use Rattle.hk_arena.specs.Cells.{table_of};
ghost use Rattle.hk_arena.specs.Forms.{layer_count};
ghost use Rattle.hk_arena.specs.Kept.{IsKept};

use crate::layout::Layout;
use hk_cells::Steps;
use hk_trail::Store;
use std::alloc::AllocError;
use std::sync::ledger::Ledger;

/// How many rows a layer of the table that cells hold has.
#[inline]
pub(crate) fn read_rows(store: &Store, layout: &Layout, layer: u16) -> u16
    requires kept { IsKept layout.now store.now.content }
    requires layer { layer < layer_count layout.now }
    ensures { result ≡ length (rows_of (table_of layout.now store.now.content) layer) }
{
    layout.know();
    let word = store.word_id(layer as u32);
    store.get_word(word) as u16
}

/// Writes how many rows a layer of the table that cells hold has. Where memory is refused nothing changes.
#[inline]
pub(crate) fn write_rows<L: Ledger>(
    store: &mut Store,
    layout: &Layout,
    layer: u16,
    rows: u16,
    steps: &mut Steps<L>,
) -> Result<(), AllocError>
    requires kept { IsKept layout.now store.old.content }
    requires layer { layer < layer_count layout.now }
    requires width { rows ≤ layout.now.width }
    requires empty { AreEmptyFrom (table_of layout.now store.old.content) layer rows }
    ensures kept { IsKept layout.now store.new.content }
    ensures table { OnOk result (IsResized layout.now.shape layer rows (table_of layout.now store.old.content) (table_of layout.now store.new.content)) }
    ensures stack { store.new.stack ≡ store.old.stack }
    ensures raised { IsRaised 1 (map cell_count store.old.written) (map cell_count store.new.written) }
    ensures ticks { steps.new ≤ steps.old + 1 }
    ensures refused { OnErr result (store.new ≡ store.old) }
{
    let word = store.word_id(layer as u32);
    store.set_word(word, rows as u32, steps)?;
    Ok(())
}
