//! The up state of one row, while its entries are judged.
ghost use Rattle.std.specs.Prelude.{◌≡◌, ◌<◌, ◌^◌, ◌∷◌, ◌++◌, [], None, length, IfOk, OnOk, OnErr};
ghost use Rattle.hk_group.specs.Groups.{group_up_shape, group_up};
ghost use Rattle.hk_kinds.specs.Shapes.{HasShape};
ghost use Rattle.hk_layers.specs.Spots.{IsSpot};
ghost use Rattle.hk_layers.specs.Climbing.{join_up, RisesAt};

use crate::spots::Spot;
use crate::ups::Ups;
use hk_base::pair;
use hk_kinds::{Shape1, State, StateView};
use std::alloc::{AllocError, Global};
use std::marker::Model;

/// The up state of a row so far, where it has one: the join of the up steps of its Live entries. It is lent
/// for one row after the other, so that none takes memory.
#[derive(Drop)]
pub struct Rising {
    there: bool,
    state: State,
    step: State,
}

impl Model for Rising {
    ghost use Rattle.std.specs.Prelude.{◌≡◌, length};
    ghost use Rattle.hk_layers.specs.Views.{RisingView, up_if};

    ghost Value = { RisingView };

    ghost view = { λ r. record { width = length r.state; up = up_if r.there r.state } };

    ghost invariant = { λ r. length r.step ≡ length r.state };
}

impl Rising {
    /// No up state; those to come have this shape.
    pub fn new(alloc: Global, shape: &Shape1) -> Result<Rising, AllocError>
        ensures { IfOk result (λ rising. rising ≡ record { width = length shape.now; up = None }) }
    {
        let (state, step) = pair(State::top(alloc, shape), State::top(alloc, shape))?;
        Ok(Rising {
            there: false,
            state,
            step,
        })
    }

    /// Has no up state again.
    pub(crate) fn clear(&mut self)
        ensures { self.new ≡ record self.old { up = None } }
    {
        self.there = false;
    }

    /// Takes in the up step by a value, of the up state after it.
    pub(crate) fn take_in(&mut self, spot: &Spot<'_>, value: u8, from: &StateView<'_>)
        requires spot { IsSpot spot.now }
        requires value { value < 128 }
        requires rises { RisesAt spot.now self.old }
        requires from { HasShape (group_up_shape spot.now.group) from.now }
        ensures up { self.new.up ≡ join_up (group_up_shape spot.now.group) self.old.up (group_up spot.now.group spot.now.layer value from.now) }
        ensures rises { RisesAt spot.now self.new }
    {
        let layer = spot.layer as usize;
        if self.there {
            spot.group.write_up(layer, value, from, &mut self.step);
            let (_, shape) = spot.group.shapes();
            self.state.join_into(&self.step, shape);
        } else {
            spot.group.write_up(layer, value, from, &mut self.state);
            self.there = true;
        }
    }

    /// Adds a row with the up state, if there is one, at the end of rows.
    pub(crate) fn push_to(&self, ups: &mut Ups) -> Result<(), AllocError>
        requires width { self.now.width ≡ ups.old.width }
        requires few { length ups.old.ups < 2 ^ 32 }
        ensures ok { OnOk result (ups.new ≡ record ups.old { ups = ups.old.ups ++ self.now.up ∷ [] }) }
        ensures err { OnErr result (ups.new ≡ ups.old) }
    {
        ups.push(self.there, &self.state.view())?;
        Ok(())
    }
}
