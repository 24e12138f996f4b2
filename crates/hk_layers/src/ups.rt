//! Up states of the rows of one layer.
ghost use Rattle.std.specs.Prelude.{◌≡◌, ◌<◌, ◌≤◌, ◌^◌, [], ◌∷◌, ◌++◌, None, Some, length, replicate, slice_index_or, OnOk, OnErr};
ghost use Rattle.hk_layers.specs.Views.{up_if};

use hk_kinds::{StateView, States};
use std::alloc::{AllocError, Global};
use std::marker::Model;

/// The up states of the rows of a layer, where they have one. What stands for a row without one is any
/// state.
#[derive(Drop)]
pub struct Ups {
    pub(crate) states: States,
    pub(crate) there: Vec<bool>,
}

impl Model for Ups {
    ghost use Rattle.std.specs.Prelude.{◌≡◌, length};
    ghost use Rattle.hk_layers.specs.Views.{UpsView, ups_by};

    ghost Value = { UpsView };

    ghost view = { λ u. record { width = u.states.width; ups = ups_by u.there.items u.states.rows } };

    ghost invariant = { λ u. length u.there.items ≡ length u.states.rows };
}

impl Ups {
    /// No rows; the states of those to come have so many properties.
    pub fn new(alloc: Global, width: usize) -> Ups
        ensures { result ≡ record { width = width; ups = [] } }
    {
        Ups {
            states: States::new(alloc, width),
            there: Vec::new(alloc),
        }
    }

    /// The up state of a row, where the row is there and has one.
    pub fn at(&self, row: usize) -> Option<StateView<'_>>
        ensures { result ≡ slice_index_or self.now.ups row None }
    {
        let there = self.there.as_slice();
        if row < there.len() && there[row] {
            Some(self.states.at(row))
        } else {
            None
        }
    }

    /// Takes all rows out, and keeps the memory for others.
    pub fn clear(&mut self)
        ensures { self.new ≡ record self.old { ups = [] } }
    {
        self.states.clear();
        self.there.clear();
    }

    /// Adds a row at the end, which has this state or none; a refused one changes nothing.
    pub fn push(&mut self, there: bool, state: &StateView<'_>) -> Result<(), AllocError>
        requires width { length state.now ≡ self.old.width }
        requires few { length self.old.ups < 2 ^ 32 }
        ensures ok { OnOk result (self.new ≡ record self.old { ups = self.old.ups ++ up_if there state.now ∷ [] }) }
        ensures err { OnErr result (self.new ≡ self.old) }
    {
        self.there.push(there)?;
        match self.states.push(state) {
            Ok(()) => Ok(()),
            Err(refused) => {
                self.there.pop();
                Err(refused)
            }
        }
    }

    /// Becomes the up states of so many rows of the last layer.
    pub fn last(&mut self, count: usize, initial: &StateView<'_>) -> Result<(), AllocError>
        requires width { length initial.now ≡ self.old.width }
        requires few { count ≤ 256 }
        ensures ups { OnOk result (self.new.ups ≡ replicate count (Some initial.now)) }
        ensures width { self.new.width ≡ self.old.width }
    {
        self.clear();
        for _made in 0..count {
            self.push(true, initial)?;
        }
        Ok(())
    }
}
