//! Pools: rows of cells of one type.

ghost use Rattle.std.specs.Prelude.{◌≡◌, ◌+◌, ◌<◌, ◌^◌, ◌++◌, [], length, replicate, slice_index_or, slice_set, OnOk, OnErr};

use crate::id::Id;
use crate::steps::Steps;
use std::alloc::{AllocError, Global};
use std::marker::Model;
use std::sync::ledger::Ledger;

/// A row of fewer than 2^32 cells of one type. Contracts see it as the list of what the cells hold.
#[derive(Drop)]
pub struct Pool<T: Copy + Eq> {
    cells: Vec<T>,
}

impl<T: Copy + Eq> Model for Pool<T> {
    ghost use Rattle.std.specs.Prelude.{List, ◌<◌, ◌^◌, vec_len};
    ghost use Rattle.std.specs.Coded.{coded_list};

    ghost Value = { List T };

    ghost coded = { coded_list T.code };

    ghost view = { λ p. p.cells.items };

    ghost invariant = { λ p. vec_len p.cells < 2 ^ 32 };
}

impl<T: Copy + Eq> Pool<T> {
    /// A pool with no cells.
    pub fn new(alloc: Global) -> Pool<T>
        ensures { result ≡ [] }
    {
        Pool {
            cells: Vec::new(alloc),
        }
    }

    /// How many cells there are.
    #[inline]
    pub fn len(&self) -> u32
        ensures { result ≡ length self.now }
    {
        self.cells.len() as u32
    }

    /// Adds `n` cells that hold `value` at the end. Where memory is refused the pool is unchanged.
    pub fn grow(&mut self, n: u32, value: T) -> Result<(), AllocError>
        requires { length self.old + n < 2 ^ 32 }
        ensures ok { OnOk result (self.new ≡ self.old ++ replicate n value) }
        ensures refused { OnErr result (self.new ≡ self.old) }
    {
        self.cells.resize(self.cells.len() + n as usize, value)?;
        Ok(())
    }

    /// The id of the cell at a place.
    #[inline]
    pub fn id(&self, at: u32) -> Id<T>
        requires { at < length self.now }
        ensures { result ≡ at }
    {
        Id::new(at)
    }

    /// What a cell holds.
    #[inline]
    pub fn get(&self, id: Id<T>) -> T
        requires { id < length self.now }
        ensures { (default : T) → result ≡ slice_index_or self.now id default }
    {
        self.cells[id.place() as usize]
    }

    /// Makes a cell hold `value`, which is one step. No other call changes a cell.
    #[inline]
    pub fn set<L: Ledger>(&mut self, id: Id<T>, value: T, steps: &mut Steps<L>)
        requires { id < length self.old }
        ensures cells { self.new ≡ slice_set self.old id value }
        ensures ticks { steps.new ≡ steps.old + 1 }
    {
        self.cells[id.place() as usize] = value;
        steps.tick();
    }
}
