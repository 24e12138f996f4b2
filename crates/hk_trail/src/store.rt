//! The store: three pools of cells with one stack of levels.

ghost use Rattle.std.specs.Prelude.{◌≡◌, ◌≢◌, ℕ, ℤ, ◌+◌, ◌<◌, ◌≤◌, ◌^◌, ◌++◌, ◌∷◌, ◌⊎◌, [], List, length, replicate, slice_index_or, slice_set, IsOk, OnOk, OnErr};
ghost use Rattle.hk_trail.specs.Pools.{HasSizes};
ghost use Rattle.hk_trail.specs.Places.{Places, AreDistinct, cell_count, no_places, with_num, with_bits, with_word, on_highest};

use crate::track::Track;
use hk_cells::{Id, Steps};
use std::alloc::{AllocError, Global};
use std::marker::Model;
use std::sync::ledger::Ledger;

/// Three pools of cells, of `i64`, `u128` and `u32`, with a stack of levels.
///
/// Contracts see its content, the contents saved at the open pushes, for each open level the cells
/// that were written while it was the highest, and how many writes need no memory.
#[derive(Drop)]
pub struct Store {
    nums: Track<i64>,
    bits: Track<u128>,
    words: Track<u32>,
}

impl Model for Store {
    ghost use Rattle.std.specs.Prelude.{◌≡◌, min, length};
    ghost use Rattle.hk_trail.specs.Levels.{Levels};
    ghost use Rattle.hk_trail.specs.Pools.{zipped};

    ghost Value = { Levels };

    ghost view = { λ s. record { content = record { nums = s.nums.content; bits = s.bits.content; words = s.words.content }; stack = zipped s.nums.stack s.bits.stack s.words.stack; written = zipped s.nums.written s.bits.written s.words.written; spare = min s.nums.spare (min s.bits.spare s.words.spare) } };

    ghost invariant = { λ s. (length s.nums.stack ≡ length s.bits.stack) × (length s.nums.stack ≡ length s.words.stack) × (length s.nums.written ≡ length s.bits.written) × (length s.nums.written ≡ length s.words.written) };
}

impl Store {
    /// A store with no cells and no open level.
    pub fn new(alloc: Global) -> Store
        ensures nums { result.content.nums ≡ [] }
        ensures bits { result.content.bits ≡ [] }
        ensures words { result.content.words ≡ [] }
        ensures stack { result.stack ≡ [] }
        ensures written { result.written ≡ [] }
    {
        Store {
            nums: Track::new(alloc),
            bits: Track::new(alloc),
            words: Track::new(alloc),
        }
    }

    /// How many levels are open.
    #[inline]
    #[tactic(auto, using(crate::proofs::Zipping::length_zipped))]
    pub fn depth(&self) -> u32
        ensures { result ≡ length self.now.stack }
    {
        self.nums.depth()
    }

    /// Adds `n` cells of `i64` that hold `value`. Where memory is refused nothing changes.
    #[tactic(auto, using(crate::proofs::Zipping::length_zipped))]
    pub fn grow_num(&mut self, n: u32, value: i64) -> Result<(), AllocError>
        requires depth { length self.old.stack ≡ 0 }
        requires room { length self.old.content.nums + n < 2 ^ 32 }
        ensures content { OnOk result (self.new.content ≡ record self.old.content { nums = self.old.content.nums ++ replicate n value }) }
        ensures stack { self.new.stack ≡ self.old.stack }
        ensures written { self.new.written ≡ self.old.written }
        ensures spare { self.new.spare ≡ self.old.spare }
        ensures refused { OnErr result (self.new ≡ self.old) }
    {
        self.nums.grow(n, value)
    }

    /// Adds `n` cells of `u128` that hold `value`. Where memory is refused nothing changes.
    #[tactic(auto, using(crate::proofs::Zipping::length_zipped))]
    pub fn grow_bits(&mut self, n: u32, value: u128) -> Result<(), AllocError>
        requires depth { length self.old.stack ≡ 0 }
        requires room { length self.old.content.bits + n < 2 ^ 32 }
        ensures content { OnOk result (self.new.content ≡ record self.old.content { bits = self.old.content.bits ++ replicate n value }) }
        ensures stack { self.new.stack ≡ self.old.stack }
        ensures written { self.new.written ≡ self.old.written }
        ensures spare { self.new.spare ≡ self.old.spare }
        ensures refused { OnErr result (self.new ≡ self.old) }
    {
        self.bits.grow(n, value)
    }

    /// Adds `n` cells of `u32` that hold `value`. Where memory is refused nothing changes.
    #[tactic(auto, using(crate::proofs::Zipping::length_zipped))]
    pub fn grow_word(&mut self, n: u32, value: u32) -> Result<(), AllocError>
        requires depth { length self.old.stack ≡ 0 }
        requires room { length self.old.content.words + n < 2 ^ 32 }
        ensures content { OnOk result (self.new.content ≡ record self.old.content { words = self.old.content.words ++ replicate n value }) }
        ensures stack { self.new.stack ≡ self.old.stack }
        ensures written { self.new.written ≡ self.old.written }
        ensures spare { self.new.spare ≡ self.old.spare }
        ensures refused { OnErr result (self.new ≡ self.old) }
    {
        self.words.grow(n, value)
    }

    /// The id of the cell of `i64` at a place.
    #[inline]
    pub fn num_id(&self, at: u32) -> Id<i64>
        requires { at < length self.now.content.nums }
        ensures { result ≡ at }
    {
        self.nums.id(at)
    }

    /// The id of the cell of `u128` at a place.
    #[inline]
    pub fn bits_id(&self, at: u32) -> Id<u128>
        requires { at < length self.now.content.bits }
        ensures { result ≡ at }
    {
        self.bits.id(at)
    }

    /// The id of the cell of `u32` at a place.
    #[inline]
    pub fn word_id(&self, at: u32) -> Id<u32>
        requires { at < length self.now.content.words }
        ensures { result ≡ at }
    {
        self.words.id(at)
    }

    /// What a cell of `i64` holds.
    #[inline]
    pub fn get_num(&self, id: Id<i64>) -> i64
        requires { id < length self.now.content.nums }
        ensures { (default : ℤ) → result ≡ slice_index_or self.now.content.nums id default }
    {
        self.nums.get(id)
    }

    /// What a cell of `u128` holds.
    #[inline]
    pub fn get_bits(&self, id: Id<u128>) -> u128
        requires { id < length self.now.content.bits }
        ensures { (default : ℕ) → result ≡ slice_index_or self.now.content.bits id default }
    {
        self.bits.get(id)
    }

    /// What a cell of `u32` holds.
    #[inline]
    pub fn get_word(&self, id: Id<u32>) -> u32
        requires { id < length self.now.content.words }
        ensures { (default : ℕ) → result ≡ slice_index_or self.now.content.words id default }
    {
        self.words.get(id)
    }

    /// Makes a cell of `i64` hold `value`. Where it does already the call changes nothing, and where
    /// memory is refused nothing changes either. Where no level is open, or the cell was written while
    /// the highest one was, the call needs no memory and takes no room.
    #[inline]
    #[tactic(auto, using(crate::proofs::Zipping::length_zipped))]
    pub fn set_num<L: Ledger>(
        &mut self,
        id: Id<i64>,
        value: i64,
        steps: &mut Steps<L>,
    ) -> Result<(), AllocError>
        requires { id < length self.old.content.nums }
        ensures equal { slice_index_or self.old.content.nums id value ≡ value → IsOk result × (self.new ≡ self.old) × (steps.new ≡ steps.old) }
        ensures content { OnOk result (self.new.content ≡ record self.old.content { nums = slice_set self.old.content.nums id value }) }
        ensures stack { self.new.stack ≡ self.old.stack }
        ensures written { (self.new.written ≡ self.old.written) ⊎ (self.new.written ≡ on_highest (with_num id) self.old.written) }
        ensures changed { slice_index_or self.old.content.nums id value ≢ value → OnOk result (self.new.written ≡ on_highest (with_num id) self.old.written) }
        ensures spared { 0 < self.old.spare → IsOk result }
        ensures closed { length self.old.stack ≡ 0 → IsOk result × (self.new.spare ≡ self.old.spare) }
        ensures noted { self.old.written ≡ on_highest (with_num id) self.old.written → IsOk result × (self.new.spare ≡ self.old.spare) }
        ensures spare { self.old.spare ≤ self.new.spare + 1 }
        ensures ticks { steps.new ≤ steps.old + 1 }
        ensures refused { OnErr result (self.new ≡ self.old) }
    {
        self.nums.set(id, value, steps)
    }

    /// Makes a cell of `u128` hold `value`. Where it does already the call changes nothing, and where
    /// memory is refused nothing changes either. Where no level is open, or the cell was written while
    /// the highest one was, the call needs no memory and takes no room.
    #[inline]
    #[tactic(auto, using(crate::proofs::Zipping::zipped_bits, crate::proofs::Zipping::bits_noted, crate::proofs::Zipping::length_zipped))]
    pub fn set_bits<L: Ledger>(
        &mut self,
        id: Id<u128>,
        value: u128,
        steps: &mut Steps<L>,
    ) -> Result<(), AllocError>
        requires { id < length self.old.content.bits }
        ensures equal { slice_index_or self.old.content.bits id value ≡ value → IsOk result × (self.new ≡ self.old) × (steps.new ≡ steps.old) }
        ensures content { OnOk result (self.new.content ≡ record self.old.content { bits = slice_set self.old.content.bits id value }) }
        ensures stack { self.new.stack ≡ self.old.stack }
        ensures written { (self.new.written ≡ self.old.written) ⊎ (self.new.written ≡ on_highest (with_bits id) self.old.written) }
        ensures changed { slice_index_or self.old.content.bits id value ≢ value → OnOk result (self.new.written ≡ on_highest (with_bits id) self.old.written) }
        ensures spared { 0 < self.old.spare → IsOk result }
        ensures closed { length self.old.stack ≡ 0 → IsOk result × (self.new.spare ≡ self.old.spare) }
        ensures noted { self.old.written ≡ on_highest (with_bits id) self.old.written → IsOk result × (self.new.spare ≡ self.old.spare) }
        ensures spare { self.old.spare ≤ self.new.spare + 1 }
        ensures ticks { steps.new ≤ steps.old + 1 }
        ensures refused { OnErr result (self.new ≡ self.old) }
    {
        self.bits.set(id, value, steps)
    }

    /// Makes a cell of `u32` hold `value`. Where it does already the call changes nothing, and where
    /// memory is refused nothing changes either. Where no level is open, or the cell was written while
    /// the highest one was, the call needs no memory and takes no room.
    #[inline]
    #[tactic(auto, using(crate::proofs::Zipping::zipped_words, crate::proofs::Zipping::words_noted, crate::proofs::Zipping::length_zipped))]
    pub fn set_word<L: Ledger>(
        &mut self,
        id: Id<u32>,
        value: u32,
        steps: &mut Steps<L>,
    ) -> Result<(), AllocError>
        requires { id < length self.old.content.words }
        ensures equal { slice_index_or self.old.content.words id value ≡ value → IsOk result × (self.new ≡ self.old) × (steps.new ≡ steps.old) }
        ensures content { OnOk result (self.new.content ≡ record self.old.content { words = slice_set self.old.content.words id value }) }
        ensures stack { self.new.stack ≡ self.old.stack }
        ensures written { (self.new.written ≡ self.old.written) ⊎ (self.new.written ≡ on_highest (with_word id) self.old.written) }
        ensures changed { slice_index_or self.old.content.words id value ≢ value → OnOk result (self.new.written ≡ on_highest (with_word id) self.old.written) }
        ensures spared { 0 < self.old.spare → IsOk result }
        ensures closed { length self.old.stack ≡ 0 → IsOk result × (self.new.spare ≡ self.old.spare) }
        ensures noted { self.old.written ≡ on_highest (with_word id) self.old.written → IsOk result × (self.new.spare ≡ self.old.spare) }
        ensures spare { self.old.spare ≤ self.new.spare + 1 }
        ensures ticks { steps.new ≤ steps.old + 1 }
        ensures refused { OnErr result (self.new ≡ self.old) }
    {
        self.words.set(id, value, steps)
    }

    /// Makes room for `n` writes, of cells of any of the three pools: none of the next `n` is refused.
    /// What cells hold and held stays, also where memory is refused.
    pub fn reserve(&mut self, n: u32) -> Result<(), AllocError>
        ensures content { self.new.content ≡ self.old.content }
        ensures stack { self.new.stack ≡ self.old.stack }
        ensures written { self.new.written ≡ self.old.written }
        ensures ok { OnOk result (n ≤ self.new.spare) }
        ensures spare { self.old.spare ≤ self.new.spare }
    {
        self.nums.reserve(n)?;
        self.bits.reserve(n)?;
        self.words.reserve(n)?;
        Ok(())
    }

    /// Opens a level: saves what all cells hold, and copies none of them. Where memory is refused
    /// nothing changes.
    #[tactic(auto, using(crate::proofs::Zipping::length_zipped))]
    pub fn push(&mut self) -> Result<(), AllocError>
        requires { length self.old.stack + 1 < 2 ^ 32 }
        ensures stack { OnOk result (self.new.stack ≡ self.old.content ∷ self.old.stack) }
        ensures content { self.new.content ≡ self.old.content }
        ensures written { OnOk result (self.new.written ≡ no_places ∷ self.old.written) }
        ensures spare { self.new.spare ≡ self.old.spare }
        ensures refused { OnErr result (self.new ≡ self.old) }
    {
        self.nums.reserve_level()?;
        self.bits.reserve_level()?;
        self.words.reserve_level()?;
        self.nums.push();
        self.bits.push();
        self.words.push();
        Ok(())
    }

    /// Closes the highest level: all cells hold what they held at its push. It ticks at most once for
    /// each cell that was written while the level was the highest, and takes no memory.
    pub fn pop<L: Ledger>(&mut self, steps: &mut Steps<L>)
        requires { 0 < length self.old.stack }
        ensures stack { self.old.stack ≡ self.new.content ∷ self.new.stack }
        ensures sizes { HasSizes self.old.content self.new.content }
        ensures written { (places : Places) × (self.old.written ≡ places ∷ self.new.written) × AreDistinct places × (steps.new ≤ steps.old + cell_count places) }
        ensures spare { self.old.spare ≤ self.new.spare }
    {
        self.nums.pop(steps);
        self.bits.pop(steps);
        self.words.pop(steps);
    }
}
