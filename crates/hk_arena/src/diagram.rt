//! Diagrams: tables in trailed cells, which calls change row by row.
ghost use Rattle.std.specs.Prelude.{◌≡◌, ◌↔◌, ℕ, ◌+◌, ◌*◌, ◌<◌, ◌≤◌, ◌^◌, ◌∷◌, [], None, Some, suc, length, option_map, slice_index, slice_index_or, All, IfOk, IfSome, IsFalse, IsTrue, MatchOption, OnOk, OnErr};
ghost use Rattle.std.specs.List.{Contains};
ghost use Rattle.hk_base.specs.Sets.{Has};
ghost use Rattle.hk_kinds.specs.Shapes.{HasShape};
ghost use Rattle.hk_table.specs.Fits.{Fits};
ghost use Rattle.hk_text.specs.Sets.{members_below};
ghost use Rattle.hk_table.specs.Keeps.{Supports};
ghost use Rattle.hk_table.specs.Opening.{opening_table};
ghost use Rattle.hk_table.specs.Tables.{flat_entries};
ghost use Rattle.hk_arena.specs.Changes.{AreEmptyFrom, IsChangedFrom, IsResized, IsRowChanged, row_made, with_row, with_entry, with_down, with_up, with_from};
ghost use Rattle.hk_arena.specs.Diagrams.{IsEntry, IsRow, row_in, rows_of, values_of};
ghost use Rattle.hk_arena.specs.Making.{IsMakeable};
ghost use Rattle.hk_arena.specs.Numbers.{IsRaised};
ghost use Rattle.hk_arena.specs.Supporting.{AreLiveThere};

use crate::blanks::blank;
use crate::entries::{read_entry, write_entry};
use crate::from::{is_from, read_from, write_from};
use crate::ids::{EntryId, RowId};
use crate::layout::Layout;
use crate::opening::opened;
use crate::reading::read_entries;
use crate::resizing::resize_layer;
use crate::row_states::{erase_up, read_down, read_up, write_down, write_up};
use crate::rows::{read_rows, write_rows};
use crate::support::support;
use crate::whole_rows::write_row;
use hk_cells::Steps;
use hk_kinds::{State, StateView};
use hk_table::{Entry, RowSet, Shape};
use hk_trail::Store;
use std::alloc::{AllocError, Global};
use std::marker::Model;
use std::sync::ledger::Ledger;

/// A layered diagram in a store of its own.
///
/// Contracts see a table and a stack of tables, those at the open pushes; the shape and the width that
/// it was made for, which no call changes; and for each open push how many distinct cells were written
/// while it was the highest.
#[derive(Drop)]
pub struct Diagram {
    store: Store,
    layout: Layout,
}

impl Model for Diagram {
    ghost use Rattle.hk_arena.specs.Diagrams.{DiagramLevels};
    ghost use Rattle.hk_arena.specs.Kept.{IsKept};
    ghost use Rattle.hk_arena.specs.Levels.{AreKept, diagram_of};

    ghost Value = { DiagramLevels };

    ghost view = { λ d. diagram_of d.layout d.store };

    ghost invariant = { λ d. IsKept d.layout d.store.content × AreKept d.layout d.store.stack };
}

impl Diagram {
    /// A diagram that holds the opening table of a shape, with room for so many rows a layer. All cells
    /// are taken here.
    pub fn make(alloc: Global, shape: &Shape, width: u16) -> Result<Diagram, AllocError>
        requires { IsMakeable shape.now width }
        ensures table { IfOk result (λ diagram. diagram.table ≡ opening_table shape.now) }
        ensures made { IfOk result (λ diagram. (diagram.shape ≡ shape.now) × (diagram.width ≡ width)) }
        ensures closed { IfOk result (λ diagram. (diagram.stack ≡ []) × (diagram.numbers ≡ [])) }
    {
        let layout = Layout::make(alloc, shape, width)?;
        match blank(alloc, &layout) {
            Ok(store) => opened(alloc, shape, Diagram { store, layout }),
            Err(refused) => {
                drop(layout);
                Err(refused)
            }
        }
    }

    /// How many layers there are, with the last.
    pub(crate) fn layers(&self) -> u16
        ensures { result ≡ suc (length self.now.shape.domains) }
    {
        self.layout.layers()
    }

    /// The set of a layer's values.
    #[inline]
    pub fn domain(&self, layer: u16) -> u128
        requires { layer < length self.now.shape.domains }
        ensures { result ≡ slice_index self.now.shape.domains layer }
    {
        self.layout.domain(layer)
    }

    /// How many values a layer has.
    #[inline]
    pub fn values(&self, layer: u16) -> u16
        requires { layer ≤ length self.now.shape.domains }
        ensures { result ≡ length (values_of self.now.shape layer) }
    {
        self.layout.values(layer)
    }

    /// How many rows a layer has.
    #[inline]
    pub fn rows(&self, layer: u16) -> u16
        requires { layer ≤ length self.now.shape.domains }
        ensures { result ≡ length (rows_of self.now.table layer) }
    {
        read_rows(&self.store, &self.layout, layer)
    }

    /// The row of a layer at a place.
    #[inline]
    pub fn row(&self, layer: u16, at: u16) -> RowId
        requires { at < length (rows_of self.now.table layer) }
        ensures { result ≡ record { layer = layer; at = at } }
    {
        RowId { layer, at }
    }

    /// The entry of a row at a place.
    #[inline]
    pub fn entry_id(&self, row: RowId, at: u16) -> EntryId
        requires { IsEntry self.now.shape self.now.table (record { row = row; at = at }) }
        ensures { result ≡ record { row = row; at = at } }
    {
        EntryId { row, at }
    }

    /// What an entry is.
    #[inline]
    pub fn entry(&self, id: EntryId) -> Entry
        requires { IsEntry self.now.shape self.now.table id }
        ensures { result ≡ slice_index_or (row_in self.now.table id.row).entries id.at Entry.Gone }
    {
        read_entry(&self.store, &self.layout, id)
    }

    /// Writes the entries of all rows of a layer, one row after the other. What `to` holds before is taken
    /// out.
    pub fn entries_into(&self, layer: u16, to: &mut Vec<Entry>) -> Result<(), AllocError>
        requires { layer < length self.now.shape.domains }
        ensures { OnOk result (to.new.items ≡ flat_entries (rows_of self.now.table layer)) }
    {
        read_entries(&self.store, &self.layout, layer, to)
    }

    /// Makes an entry another one. Where memory is refused nothing changes.
    #[inline]
    pub fn set_entry<L: Ledger>(
        &mut self,
        id: EntryId,
        value: Entry,
        steps: &mut Steps<L>,
    ) -> Result<(), AllocError>
        requires { IsEntry self.old.shape self.old.table id }
        ensures ok { OnOk result (self.new ≡ record self.old { table = with_row id.row (with_entry id.at value) self.old.table; numbers = self.new.numbers }) }
        ensures raised { IsRaised 1 self.old.numbers self.new.numbers }
        ensures ticks { steps.new ≤ steps.old + 1 }
        ensures refused { OnErr result (self.new ≡ self.old) }
    {
        write_entry(&mut self.store, &self.layout, id, value, steps)?;
        Ok(())
    }

    /// Gives a layer so many rows: the first ones stay as they were, and those that are added have Gone
    /// entries alone, as those that are taken away must have. Where memory is refused nothing changes.
    #[inline]
    pub fn set_rows<L: Ledger>(
        &mut self,
        layer: u16,
        rows: u16,
        steps: &mut Steps<L>,
    ) -> Result<(), AllocError>
        requires layer { layer ≤ length self.old.shape.domains }
        requires width { rows ≤ self.old.width }
        requires empty { AreEmptyFrom self.old.table layer rows }
        ensures ok { OnOk result (IsResized self.old.shape layer rows self.old.table self.new.table) }
        ensures others { self.new ≡ record self.old { table = self.new.table; numbers = self.new.numbers } }
        ensures raised { IsRaised 1 self.old.numbers self.new.numbers }
        ensures ticks { steps.new ≤ steps.old + 1 }
        ensures refused { OnErr result (self.new ≡ self.old) }
    {
        write_rows(&mut self.store, &self.layout, layer, rows, steps)?;
        Ok(())
    }

    /// Gives a layer so many rows: the first ones stay as they were, and those that are added have Gone
    /// entries alone. Where memory is refused each layer has as many rows as before, and only those of this
    /// layer from the new number on may have changed. As every table of a diagram it fits: `fits`.
    pub fn resize<L: Ledger>(
        &mut self,
        layer: u16,
        rows: u16,
        steps: &mut Steps<L>,
    ) -> Result<(), AllocError>
        requires layer { layer ≤ length self.old.shape.domains }
        requires width { rows ≤ self.old.width }
        ensures ok { OnOk result (IsResized self.old.shape layer rows self.old.table self.new.table) }
        ensures refused { OnErr result (IsChangedFrom layer rows self.old.table self.new.table) }
        ensures others { self.new ≡ record self.old { table = self.new.table; numbers = self.new.numbers } }
        ensures raised { IsRaised (1 + self.old.width * length (values_of self.old.shape layer)) self.old.numbers self.new.numbers }
        ensures ticks { steps.new ≤ steps.old + (1 + self.old.width * length (values_of self.old.shape layer)) }
    {
        resize_layer(&mut self.store, &self.layout, layer, rows, steps)?;
        Ok(())
    }

    /// Reads the down state of a row into a state of the same shape.
    pub fn down(&self, row: RowId, to: &mut State)
        requires row { IsRow self.now.table row }
        requires shape { HasShape self.now.shape.down to.old }
        ensures state { to.new ≡ (row_in self.now.table row).down }
        ensures shape { HasShape self.now.shape.down to.new }
    {
        read_down(&self.store, &self.layout, row, to);
    }

    /// Reads the up state of a row into a state of the same shape, where the row has one, and says
    /// whether it has.
    pub fn up(&self, row: RowId, to: &mut State) -> bool
        requires row { IsRow self.now.table row }
        requires shape { HasShape self.now.shape.up to.old }
        ensures some { IsTrue result → (row_in self.now.table row).up ≡ Some to.new }
        ensures none { IsFalse result → ((row_in self.now.table row).up ≡ None) × (to.new ≡ to.old) }
        ensures shape { HasShape self.now.shape.up to.new }
    {
        read_up(&self.store, &self.layout, row, to)
    }

    /// Whether a row comes from a row of an older table.
    pub fn comes_from(&self, row: RowId, old: u16) -> bool
        requires { IsRow self.now.table row }
        ensures { IsTrue result ↔ Contains (row_in self.now.table row).from old }
    {
        is_from(&self.store, &self.layout, row, old)
    }

    /// The set of the rows of an older table that a row comes from, which are below 256.
    #[tactic(auto, unfolding(crate::specs::Cells::rows_in_set))]
    pub fn from_rows(&self, row: RowId) -> RowSet
        requires { IsRow self.now.table row }
        ensures { members_below result 256 ≡ (row_in self.now.table row).from }
    {
        read_from(&self.store, &self.layout, row)
    }

    /// Gives a row another down state. Where memory is refused the row is any that fits, and all others
    /// are as they were.
    pub fn set_down<L: Ledger>(
        &mut self,
        row: RowId,
        value: &State,
        steps: &mut Steps<L>,
    ) -> Result<(), AllocError>
        requires row { IsRow self.old.table row }
        requires shape { HasShape self.old.shape.down value.now }
        ensures ok { OnOk result (self.new.table ≡ with_row row (with_down value.now) self.old.table) }
        ensures changed { IsRowChanged self.old.shape row self.old.table self.new.table }
        ensures others { self.new ≡ record self.old { table = self.new.table; numbers = self.new.numbers } }
        ensures raised { IsRaised (2 * length value.now) self.old.numbers self.new.numbers }
        ensures ticks { steps.new ≤ steps.old + 2 * length value.now }
    {
        write_down(&mut self.store, &self.layout, row, &value.view(), steps)?;
        Ok(())
    }

    /// Gives a row another up state, or none. Where memory is refused the row is any that fits, and all
    /// others are as they were.
    pub fn set_up<L: Ledger>(
        &mut self,
        row: RowId,
        value: Option<&State>,
        steps: &mut Steps<L>,
    ) -> Result<(), AllocError>
        requires row { IsRow self.old.table row }
        requires shape { IfSome value (λ state. HasShape self.old.shape.up state.now) }
        ensures ok { OnOk result (self.new.table ≡ with_row row (with_up (option_map (λ state. state.now) value.entry)) self.old.table) }
        ensures changed { IsRowChanged self.old.shape row self.old.table self.new.table }
        ensures others { self.new ≡ record self.old { table = self.new.table; numbers = self.new.numbers } }
        ensures raised { MatchOption value.entry (IsRaised 1 self.old.numbers self.new.numbers) (λ state. IsRaised (1 + 2 * length state.now) self.old.numbers self.new.numbers) }
        ensures ticks { MatchOption value.entry (steps.new ≤ steps.old + 1) (λ state. steps.new ≤ steps.old + (1 + 2 * length state.now)) }
    {
        match value {
            Some(state) => write_up(&mut self.store, &self.layout, row, &state.view(), steps)?,
            None => erase_up(&mut self.store, &self.layout, row, steps)?,
        }
        Ok(())
    }

    /// Says which rows of an older table a row comes from: some, ascending, below the width. Where memory
    /// is refused the row is any that fits, and all others are as they were.
    pub fn set_from<L: Ledger>(
        &mut self,
        row: RowId,
        old: &[u16],
        steps: &mut Steps<L>,
    ) -> Result<(), AllocError>
        requires row { IsRow self.old.table row }
        requires some { 0 < length old.now }
        requires ascending { (k : ℕ) → k + 1 < length old.now → slice_index old.now k < slice_index old.now (k + 1) }
        requires within { All (λ from. from < self.old.width) old.now }
        ensures ok { OnOk result (self.new.table ≡ with_row row (with_from old.now) self.old.table) }
        ensures changed { IsRowChanged self.old.shape row self.old.table self.new.table }
        ensures others { self.new ≡ record self.old { table = self.new.table; numbers = self.new.numbers } }
        ensures raised { IsRaised 2 self.old.numbers self.new.numbers }
        ensures ticks { steps.new ≤ steps.old + 2 }
    {
        write_from(&mut self.store, &self.layout, row, old, steps)?;
        Ok(())
    }

    /// Writes all parts of a row at once. Where memory is refused the row is any that fits, and all
    /// others are as they were.
    pub fn set_row<L: Ledger>(
        &mut self,
        row: RowId,
        down: &StateView<'_>,
        up: Option<StateView<'_>>,
        from: &RowSet,
        entries: &[Entry],
        steps: &mut Steps<L>,
    ) -> Result<(), AllocError>
        requires row { IsRow self.old.table row }
        requires down { HasShape self.old.shape.down down.now }
        requires up { IfSome up (HasShape self.old.shape.up) }
        requires entries { length entries.now ≡ length (values_of self.old.shape row.layer) }
        ensures ok { OnOk result (self.new.table ≡ with_row row (λ old. row_made down.now up.entry (members_below from.now 256) entries.now) self.old.table) }
        ensures changed { IsRowChanged self.old.shape row self.old.table self.new.table }
        ensures others { self.new ≡ record self.old { table = self.new.table; numbers = self.new.numbers } }
        ensures raised { IsRaised (3 + 2 * length self.old.shape.down + 2 * length self.old.shape.up + length entries.now) self.old.numbers self.new.numbers }
        ensures ticks { steps.new ≤ steps.old + (3 + 2 * length self.old.shape.down + 2 * length self.old.shape.up + length entries.now) }
    {
        write_row(
            &mut self.store,
            &self.layout,
            row,
            down,
            up,
            from,
            entries,
            steps,
        )?;
        Ok(())
    }

    /// Writes the supported values of each layer but the last: those at which a row that Live entries reach
    /// from row 0 of the first layer has a Live entry. It takes no memory.
    pub fn support_into(&self, out: &mut [u128])
        requires places { length out.old ≡ length self.now.shape.domains }
        requires live { AreLiveThere self.now.shape self.now.table }
        ensures places { length out.new ≡ length self.now.shape.domains }
        ensures supported { (level value : ℕ) → level < length self.now.shape.domains → Has (slice_index out.new level) value ↔ Supports self.now.shape self.now.table level value }
    {
        support(&self.store, &self.layout, out);
    }

    /// What callers may rely on: the table fits the shape, no layer has more rows than the width, which is
    /// 1 to 256, and at most 256 layers have values.
    #[inline]
    pub fn fits(&self)
        ensures fits { Fits self.now.shape self.now.table }
        ensures few { (layer : ℕ) → length (rows_of self.now.table layer) ≤ self.now.width }
        ensures some { 0 < self.now.width }
        ensures width { self.now.width ≤ 256 }
        ensures few_layers { length self.now.shape.domains ≤ 256 }
    {
        self.layout.know();
    }

    /// Opens a level: saves the table. Where memory is refused nothing changes.
    pub fn push(&mut self) -> Result<(), AllocError>
        requires { length self.old.stack + 1 < 2 ^ 32 }
        ensures ok { OnOk result (self.new ≡ record self.old { stack = self.old.table ∷ self.old.stack; numbers = 0 ∷ self.old.numbers }) }
        ensures refused { OnErr result (self.new ≡ self.old) }
    {
        self.store.push()?;
        Ok(())
    }

    /// Closes the highest level: the table is the one at its push. It ticks at most once for each cell
    /// that was written while the level was the highest, and takes no memory.
    pub fn pop<L: Ledger>(&mut self, steps: &mut Steps<L>)
        requires { 0 < length self.old.stack }
        ensures stack { self.old.stack ≡ self.new.table ∷ self.new.stack }
        ensures made { (self.new.shape ≡ self.old.shape) × (self.new.width ≡ self.old.width) }
        ensures ticks { (number : ℕ) × (self.old.numbers ≡ number ∷ self.new.numbers) × (steps.new ≤ steps.old + number) }
    {
        self.store.pop(steps);
    }
}
