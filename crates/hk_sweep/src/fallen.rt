//! A layer of the way down.
ghost use Rattle.std.specs.Prelude.{◌≡◌, ◌*◌, ◌<◌, ◌≤◌, ◌∷◌, [], List, length, slice_index_or, slice_set, All, OnOk};
ghost use Rattle.hk_group.specs.Groups.{group_down_shape, group_up_shape};
ghost use Rattle.hk_kinds.specs.Tops.{top_state};
ghost use Rattle.hk_layers.specs.Falling.{AreLong, IsDown};
ghost use Rattle.hk_layers.specs.Flat.{AreShaped};
ghost use Rattle.hk_layers.specs.Spots.{IsSpot};
ghost use Rattle.hk_table.specs.Tables.{PlainRow, flat_entries};
ghost use Rattle.hk_text.specs.Sets.{members};
ghost use Rattle.hk_sweep.specs.inside.Fallen.{no_layer};
ghost use Rattle.hk_sweep.specs.Views.{FallenView};

use hk_kinds::StateView;
use hk_layers::{DownBuffers, Front, Lead, Spot, down_layer};
use hk_table::Entry;
use std::alloc::{AllocError, Global};
use std::marker::Model;
use std::mem::swap;

/// A layer on the way down: its rows, and where the values of each row lead.
#[derive(Drop)]
pub(crate) struct Fallen {
    pub(crate) front: Front,
    pub(crate) leads: Vec<Lead>,
}

impl Model for Fallen {
    ghost use Rattle.hk_sweep.specs.Views.{FallenView};

    ghost Value = { FallenView };

    ghost view = { λ f. record { width = f.front.width; halves = f.front.halves; leads = f.leads.items } };
}

impl Fallen {
    /// A layer without rows; the states of those to come have so many properties.
    pub(crate) fn new(alloc: Global, width: usize) -> Fallen
        ensures { result ≡ record { width = width; halves = []; leads = [] } }
    {
        Fallen {
            front: Front::new(alloc, width),
            leads: Vec::new(alloc),
        }
    }

    /// Becomes the one row of the first layer, which has this down state.
    pub(crate) fn begin(&mut self, down: &StateView<'_>) -> Result<(), AllocError>
        requires { length down.now ≡ self.old.width }
        ensures halves { OnOk result (self.new.halves ≡ record { down = down.now; from = 0 ∷ [] } ∷ []) }
        ensures width { self.new.width ≡ self.old.width }
    {
        self.front.begin(down)
    }

    /// Finds where the values of the rows lead at a layer, over the entries of its old rows, which lead to so many
    /// rows of the next old layer; and the rows of the next layer.
    pub(crate) fn lead(
        &mut self,
        alloc: Global,
        spot: &Spot<'_>,
        top_up: &StateView<'_>,
        olds: &[Entry],
        count: u16,
        next: &mut Fallen,
        buffers: &mut DownBuffers,
    ) -> Result<(), AllocError>
        requires spot { IsSpot spot.now }
        requires top_up { top_up.now ≡ top_state (group_up_shape spot.now.group) }
        requires shapes { AreShaped (group_down_shape spot.now.group) self.old.halves }
        requires few { length self.old.halves ≤ 256 }
        requires count { count ≤ 256 }
        requires next { next.old.width ≡ length (group_down_shape spot.now.group) }
        requires buffers { buffers.old ≡ length (group_down_shape spot.now.group) }
        ensures down { (old old_next : List PlainRow) → AreLong (length (members spot.now.values)) old → length old_next ≡ count → olds.now ≡ flat_entries old → OnOk result (IsDown spot.now old old_next self.old.halves self.new.leads next.new.halves) }
        ensures long { OnOk result (length self.new.leads ≡ length self.old.halves * length (members spot.now.values)) }
        ensures shapes { OnOk result (AreShaped (group_down_shape spot.now.group) next.new.halves) }
        ensures within { OnOk result (length next.new.halves ≤ spot.now.width) }
        ensures kept { self.new ≡ record self.old { leads = self.new.leads } }
        ensures next_width { next.new.width ≡ next.old.width }
        ensures buffers { buffers.new ≡ buffers.old }
    {
        down_layer(
            alloc,
            spot,
            top_up,
            &self.front,
            olds,
            count,
            &mut self.leads,
            &mut next.front,
            buffers,
        )
    }
}

/// Adds layers without rows until there are so many. The states of all of them have so many properties.
pub(crate) fn add_layers(
    layers: &mut Vec<Fallen>,
    alloc: Global,
    width: usize,
    count: usize,
) -> Result<(), AllocError>
    requires { All (λ (layer : FallenView). layer.width ≡ width) layers.old.items }
    ensures widths { All (λ (layer : FallenView). layer.width ≡ width) layers.new.items }
    ensures room { OnOk result (count ≤ length layers.new.items) }
{
    for _made in layers.len()..count {
        layers.push(Fallen::new(alloc, width))?;
    }
    Ok(())
}

/// Puts a layer at a place among others, and takes the one that stood there.
pub(crate) fn exchange(layers: &mut Vec<Fallen>, at: usize, layer: &mut Fallen)
    requires { at < length layers.old.items }
    ensures layers { layers.new.items ≡ slice_set layers.old.items at layer.old }
    ensures layer { layer.new ≡ slice_index_or layers.old.items at no_layer }
{
    swap(&mut layers.as_mut_slice()[at], layer);
}
