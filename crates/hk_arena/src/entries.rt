//! Entries in words: what an entry is by the remainder by 4, and the row that it names by the quotient.
ghost use Rattle.std.specs.Prelude.{◌≡◌, ℕ, ◌+◌, ◌≤◌, length, map, slice_index_or, OnOk, OnErr};
ghost use Rattle.hk_trail.specs.Places.{cell_count};
ghost use Rattle.hk_arena.specs.Changes.{with_row, with_entry};
ghost use Rattle.hk_arena.specs.Diagrams.{IsEntry, row_in};
ghost use Rattle.hk_arena.specs.Numbers.{IsRaised};
ghost use Rattle.hk_arena.specs.Cells.{entry_of, table_of};
ghost use Rattle.hk_arena.specs.Kept.{IsKept};

use crate::ids::EntryId;
use crate::layout::Layout;
use hk_cells::Steps;
use hk_table::Entry;
use hk_trail::Store;
use std::alloc::AllocError;
use std::sync::ledger::Ledger;

/// The entry that a word holds.
#[inline]
#[tactic(auto, unfolding(crate::specs::Cells::entry_of))]
pub(crate) fn entry_of(word: u32) -> Entry
    ensures { result ≡ entry_of word }
{
    let row = (word / 4 % 65536) as u16;
    match word % 4 {
        0 => Entry::Gone,
        1 => Entry::Cut,
        2 => Entry::Dead(row),
        _ => Entry::Live(row),
    }
}

/// A word that holds an entry.
#[inline]
#[tactic(auto, unfolding(crate::specs::Cells::entry_of))]
pub(crate) fn word_of(entry: Entry) -> u32
    ensures { entry_of result ≡ entry }
{
    match entry {
        Entry::Gone => 0,
        Entry::Cut => 1,
        Entry::Dead(row) => 2 + 4 * row as u32,
        Entry::Live(row) => 3 + 4 * row as u32,
    }
}

/// An entry of the table that cells hold.
#[inline]
pub(crate) fn read_entry(store: &Store, layout: &Layout, id: EntryId) -> Entry
    requires kept { IsKept layout.now store.now.content }
    requires entry { IsEntry layout.now.shape (table_of layout.now store.now.content) id }
    ensures { result ≡ slice_index_or (row_in (table_of layout.now store.now.content) id.row).entries id.at Entry.Gone }
{
    let word = store.word_id(layout.entry_word(id));
    entry_of(store.get_word(word))
}

/// Writes an entry of the table that cells hold. Where memory is refused nothing changes.
#[inline]
pub(crate) fn write_entry<L: Ledger>(
    store: &mut Store,
    layout: &Layout,
    id: EntryId,
    value: Entry,
    steps: &mut Steps<L>,
) -> Result<(), AllocError>
    requires kept { IsKept layout.now store.old.content }
    requires entry { IsEntry layout.now.shape (table_of layout.now store.old.content) id }
    ensures kept { IsKept layout.now store.new.content }
    ensures table { OnOk result (table_of layout.now store.new.content ≡ with_row id.row (with_entry id.at value) (table_of layout.now store.old.content)) }
    ensures stack { store.new.stack ≡ store.old.stack }
    ensures raised { IsRaised 1 (map cell_count store.old.written) (map cell_count store.new.written) }
    ensures ticks { steps.new ≤ steps.old + 1 }
    ensures refused { OnErr result (store.new ≡ store.old) }
{
    let word = store.word_id(layout.entry_word(id));
    store.set_word(word, word_of(value), steps)?;
    Ok(())
}
