//! Rows of one layer on the way down.
ghost use Rattle.std.specs.Prelude.{◌≡◌, ◌<◌, ◌∷◌, [], length, OnOk};
ghost use Rattle.hk_layers.specs.Flat.{half_at};
ghost use Rattle.hk_text.specs.Sets.{members_below};

use hk_kinds::{StateView, States};
use hk_table::RowSet;
use std::alloc::{AllocError, Global};
use std::marker::Model;

/// The rows of a layer on the way down: their down states, and the rows of the old layer that each comes
/// from.
#[derive(Drop)]
pub struct Front {
    pub(crate) downs: States,
    pub(crate) froms: Vec<RowSet>,
}

impl Model for Front {
    ghost use Rattle.std.specs.Prelude.{◌≡◌, length, map};
    ghost use Rattle.hk_layers.specs.Flat.{halves_of};
    ghost use Rattle.hk_layers.specs.Views.{FrontView};

    ghost Value = { FrontView };

    ghost view = { λ f. record { width = f.downs.width; halves = halves_of f.downs.rows f.froms.items } };

    ghost invariant = { λ f. length f.downs.rows ≡ length f.froms.items };
}

impl Front {
    /// No rows; the states of those to come have so many properties.
    pub fn new(alloc: Global, width: usize) -> Front
        ensures { result ≡ record { width = width; halves = [] } }
    {
        Front {
            downs: States::new(alloc, width),
            froms: Vec::new(alloc),
        }
    }

    /// How many rows there are.
    #[inline]
    pub fn len(&self) -> usize
        ensures { result ≡ length self.now.halves }
    {
        self.froms.len()
    }

    /// The down state of a row.
    #[inline]
    pub fn down(&self, at: usize) -> StateView<'_>
        requires { at < length self.now.halves }
        ensures { result ≡ (half_at self.now.halves at).down }
    {
        self.downs.at(at)
    }

    /// The set of old rows that a row comes from.
    #[inline]
    pub fn from(&self, at: usize) -> &RowSet
        requires { at < length self.now.halves }
        ensures { members_below result.now 256 ≡ (half_at self.now.halves at).from }
    {
        &self.froms.as_slice()[at]
    }

    /// Becomes the one row of the first layer, which has this down state and comes from row 0.
    pub fn begin(&mut self, down: &StateView<'_>) -> Result<(), AllocError>
        requires { length down.now ≡ self.old.width }
        ensures halves { OnOk result (self.new.halves ≡ record { down = down.now; from = 0 ∷ [] } ∷ []) }
        ensures width { self.new.width ≡ self.old.width }
    {
        self.downs.clear();
        self.froms.clear();
        // Bit 0 stands for row 0.
        self.froms.push(RowSet::of_halves(1, 0))?;
        match self.downs.push(down) {
            Ok(()) => Ok(()),
            Err(refused) => {
                self.froms.pop();
                Err(refused)
            }
        }
    }
}
