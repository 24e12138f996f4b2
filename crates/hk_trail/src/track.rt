//! One pool with its log and its levels.

ghost use Rattle.std.specs.Prelude.{◌≡◌, ◌≢◌, ℕ, ◌+◌, ◌<◌, ◌≤◌, ◌^◌, ◌++◌, ◌∷◌, ◌⊎◌, [], List, length, replicate, slice_index_or, slice_set, nat_eq, IsOk, OnOk, OnErr};
ghost use Rattle.std.specs.List.{IsDistinct};
ghost use Rattle.hk_trail.specs.Places.{with_place, on_highest};

use crate::cell::Cell;
use crate::replay::replay;
use crate::saved::Saved;
use hk_cells::{Id, Pool, Steps};
use std::alloc::{AllocError, Global};
use std::marker::Model;
use std::sync::ledger::Ledger;

/// One pool with its levels. Contracts see it as what its cells hold and held at each open push.
///
/// `entries` counts the entries of the log that the highest level made, and `below` those of each level
/// below it, beginning with the time before any push, which made none.
#[derive(Drop)]
pub(crate) struct Track<T: Cell> {
    cells: Pool<T>,
    stamps: Vec<u32>,
    log: Vec<Saved<T>>,
    entries: usize,
    below: Vec<usize>,
}

impl<T: Cell> Model for Track<T> {
    ghost use Rattle.std.specs.Prelude.{◌-◌, reverse, vec_len, vec_capacity};
    ghost use Rattle.hk_trail.specs.Levels.{PoolLevels};
    ghost use Rattle.hk_trail.specs.Log.{saved_contents, logged_places};
    ghost use Rattle.hk_trail.specs.Marks.{IsKept};

    ghost Value = { PoolLevels T };

    ghost view = { λ t. record { content = t.cells; stack = saved_contents t.entries (reverse t.below.items) (reverse t.log.items) t.cells; written = logged_places t.entries (reverse t.below.items) (reverse t.log.items); spare = vec_capacity t.log - vec_len t.log; room = vec_capacity t.below - vec_len t.below } };

    ghost invariant = { λ t. IsKept t.cells t.stamps.items t.log.items t.entries t.below.items };
}

impl<T: Cell> Track<T> {
    /// A pool with no cells and no open level.
    pub(crate) fn new(alloc: Global) -> Track<T>
        ensures content { result.content ≡ [] }
        ensures stack { result.stack ≡ [] }
        ensures written { result.written ≡ [] }
    {
        Track {
            cells: Pool::new(alloc),
            stamps: Vec::new(alloc),
            log: Vec::new(alloc),
            entries: 0,
            below: Vec::new(alloc),
        }
    }

    /// How many levels are open.
    #[inline]
    pub(crate) fn depth(&self) -> u32
        ensures { result ≡ length self.now.stack }
    {
        self.below.len() as u32
    }

    /// The id of the cell at a place.
    #[inline]
    pub(crate) fn id(&self, at: u32) -> Id<T>
        requires { at < length self.now.content }
        ensures { result ≡ at }
    {
        self.cells.id(at)
    }

    /// What a cell holds.
    #[inline]
    pub(crate) fn get(&self, id: Id<T>) -> T
        requires { id < length self.now.content }
        ensures { (default : T) → result ≡ slice_index_or self.now.content id default }
    {
        self.cells.get(id)
    }

    /// Adds `n` cells that hold `value`. Where memory is refused nothing changes.
    pub(crate) fn grow(&mut self, n: u32, value: T) -> Result<(), AllocError>
        requires depth { length self.old.stack ≡ 0 }
        requires room { length self.old.content + n < 2 ^ 32 }
        ensures content { OnOk result (self.new.content ≡ self.old.content ++ replicate n value) }
        ensures stack { OnOk result (self.new.stack ≡ self.old.stack) }
        ensures written { OnOk result (self.new.written ≡ self.old.written) }
        ensures spare { OnOk result (self.new.spare ≡ self.old.spare) }
        ensures refused { OnErr result (self.new ≡ self.old) }
    {
        let len = self.cells.len() as usize;
        self.stamps.resize(len + n as usize, 0)?;
        self.cells.grow(n, value)?;
        Ok(())
    }

    /// Makes room in the log for `n` more entries.
    pub(crate) fn reserve(&mut self, n: u32) -> Result<(), AllocError>
        ensures content { self.new.content ≡ self.old.content }
        ensures stack { self.new.stack ≡ self.old.stack }
        ensures written { self.new.written ≡ self.old.written }
        ensures ok { OnOk result (n ≤ self.new.spare) }
        ensures spare { self.old.spare ≤ self.new.spare }
    {
        self.log.reserve(n as usize)
    }

    /// Makes room for one more push.
    pub(crate) fn reserve_level(&mut self) -> Result<(), AllocError>
        ensures content { self.new.content ≡ self.old.content }
        ensures stack { self.new.stack ≡ self.old.stack }
        ensures written { self.new.written ≡ self.old.written }
        ensures spare { self.new.spare ≡ self.old.spare }
        ensures ok { OnOk result (0 < self.new.room) }
    {
        self.below.reserve(1)
    }

    /// Saves what all cells hold.
    pub(crate) fn push(&mut self)
        requires depth { length self.old.stack + 1 < 2 ^ 32 }
        requires room { 0 < self.old.room }
        ensures content { self.new.content ≡ self.old.content }
        ensures stack { self.new.stack ≡ self.old.content ∷ self.old.stack }
        ensures written { self.new.written ≡ [] ∷ self.old.written }
        ensures spare { self.new.spare ≡ self.old.spare }
    {
        self.below.push_reserved(self.entries);
        self.entries = 0;
    }

    /// Gives all cells what they held at the latest open push.
    pub(crate) fn pop<L: Ledger>(&mut self, steps: &mut Steps<L>)
        requires { 0 < length self.old.stack }
        ensures stack { self.old.stack ≡ self.new.content ∷ self.new.stack }
        ensures size { length self.new.content ≡ length self.old.content }
        ensures written { (places : List ℕ) × (self.old.written ≡ places ∷ self.new.written) × IsDistinct nat_eq places × (steps.new ≡ steps.old + length places) }
        ensures spare { self.old.spare ≤ self.new.spare }
    {
        replay(
            &mut self.cells,
            &mut self.stamps,
            &mut self.log,
            self.entries,
            steps,
        );
        let Some(entries) = self.below.pop() else {
            unreachable!()
        };
        self.entries = entries;
    }

    /// Makes a cell hold `value`. Where memory is refused nothing changes, and none is asked for where
    /// `note` needs no entry.
    #[inline]
    pub(crate) fn set<L: Ledger>(
        &mut self,
        id: Id<T>,
        value: T,
        steps: &mut Steps<L>,
    ) -> Result<(), AllocError>
        requires { id < length self.old.content }
        ensures equal { slice_index_or self.old.content id value ≡ value → IsOk result × (self.new ≡ self.old) × (steps.new ≡ steps.old) }
        ensures content { OnOk result (self.new.content ≡ slice_set self.old.content id value) }
        ensures stack { self.new.stack ≡ self.old.stack }
        ensures written { (self.new.written ≡ self.old.written) ⊎ (self.new.written ≡ on_highest (with_place id) self.old.written) }
        ensures changed { slice_index_or self.old.content id value ≢ value → OnOk result (self.new.written ≡ on_highest (with_place id) self.old.written) }
        ensures spared { 0 < self.old.spare → IsOk result }
        ensures closed { length self.old.stack ≡ 0 → IsOk result × (self.new.spare ≡ self.old.spare) }
        ensures noted { self.old.written ≡ on_highest (with_place id) self.old.written → IsOk result × (self.new.spare ≡ self.old.spare) }
        ensures spare { self.old.spare ≤ self.new.spare + 1 }
        ensures ticks { steps.new ≤ steps.old + 1 }
        ensures refused { OnErr result (self.new ≡ self.old) }
    {
        if self.cells.get(id).is(value) {
            return Ok(());
        }
        self.note(id)?;
        self.write(id, value, steps);
        Ok(())
    }

    /// Puts what a cell holds into the log, unless the highest level's part has the cell or no level
    /// is open: then it takes no room, and never fails. Where memory is refused nothing changes.
    fn note(&mut self, id: Id<T>) -> Result<(), AllocError>
        requires { id < length self.old.content }
        ensures content { self.new.content ≡ self.old.content }
        ensures stack { self.new.stack ≡ self.old.stack }
        ensures written { OnOk result (self.new.written ≡ on_highest (with_place id) self.old.written) }
        ensures spared { 0 < self.old.spare → IsOk result }
        ensures closed { length self.old.stack ≡ 0 → IsOk result × (self.new.spare ≡ self.old.spare) }
        ensures noted { self.old.written ≡ on_highest (with_place id) self.old.written → IsOk result × (self.new.spare ≡ self.old.spare) }
        ensures spare { self.old.spare ≤ self.new.spare + 1 }
        ensures refused { OnErr result (self.new ≡ self.old) }
    {
        let level = self.below.len() as u32;
        let at = id.place() as usize;
        let stamp = self.stamps[at];
        if stamp == level {
            return Ok(());
        }
        self.log.reserve(1)?;
        let value = self.cells.get(id);
        self.log.push_reserved(Saved { id, value, stamp });
        self.entries += 1;
        self.stamps[at] = level;
        Ok(())
    }

    /// Writes a cell that the highest level's part of the log has, where a level is open.
    fn write<L: Ledger>(&mut self, id: Id<T>, value: T, steps: &mut Steps<L>)
        requires place { id < length self.old.content }
        requires noted { self.old.written ≡ on_highest (with_place id) self.old.written }
        ensures content { self.new.content ≡ slice_set self.old.content id value }
        ensures stack { self.new.stack ≡ self.old.stack }
        ensures written { self.new.written ≡ self.old.written }
        ensures spare { self.new.spare ≡ self.old.spare }
        ensures ticks { steps.new ≡ steps.old + 1 }
    {
        self.cells.set(id, value, steps);
    }
}
