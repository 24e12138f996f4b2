//! The way down by one layer: where the values of its rows lead, and the rows of the next layer.
ghost use Rattle.std.specs.Prelude.{◌≡◌, ◌≤◌, ◌*◌, List, length, IfOk, OnOk};
ghost use Rattle.hk_group.specs.Groups.{group_down_shape, group_up_shape};
ghost use Rattle.hk_kinds.specs.Tops.{top_state};
ghost use Rattle.hk_table.specs.Tables.{PlainRow, flat_entries};
ghost use Rattle.hk_text.specs.Sets.{members};
ghost use Rattle.hk_layers.specs.Falling.{AreLong, IsDown};
ghost use Rattle.hk_layers.specs.Flat.{AreShaped};
ghost use Rattle.hk_layers.specs.Spots.{IsSpot};

use crate::fronts::Front;
use crate::leading::lead_on;
use crate::leads::Lead;
use crate::marking::mark_layer;
use crate::marks::Marks;
use crate::spots::Spot;
use hk_kinds::{Shape1, StateView, States};
use hk_table::{Entry, RowSet};
use std::alloc::{AllocError, Global};
use std::marker::Model;

/// Lists that the way down by a layer works in. They keep their memory for the next layer. Contracts see how
/// many properties the states in them have.
#[derive(Drop)]
pub struct DownBuffers {
    marks: Marks,
    sets: Vec<RowSet>,
    steps: States,
    places: Vec<usize>,
}

impl Model for DownBuffers {
    ghost use Rattle.std.specs.Prelude.{◌≡◌, ℕ};

    ghost Value = { ℕ };

    ghost view = { λ b. b.steps.width };

    ghost invariant = { λ b. b.marks.width ≡ b.steps.width };
}

impl DownBuffers {
    /// Empty lists, for states of this shape.
    pub fn new(alloc: Global, shape: &Shape1) -> Result<DownBuffers, AllocError>
        ensures { IfOk result (λ buffers. buffers ≡ length shape.now) }
    {
        Ok(DownBuffers {
            marks: Marks::new(alloc, shape)?,
            sets: Vec::new(alloc),
            steps: States::new(alloc, shape.as_slice().len()),
            places: Vec::new(alloc),
        })
    }
}

/// The way down by one layer, over the entries of its old rows, which lead to so many rows of the next old
/// layer: finds where the values of the rows lead, and the rows of the next layer. What `leads` and `next` hold before is
/// taken out.
pub fn down_layer(
    alloc: Global,
    spot: &Spot<'_>,
    top_up: &StateView<'_>,
    front: &Front,
    olds: &[Entry],
    count: u16,
    leads: &mut Vec<Lead>,
    next: &mut Front,
    buffers: &mut DownBuffers,
) -> Result<(), AllocError>
    requires spot { IsSpot spot.now }
    requires top_up { top_up.now ≡ top_state (group_up_shape spot.now.group) }
    requires front { AreShaped (group_down_shape spot.now.group) front.now.halves }
    requires few { length front.now.halves ≤ 256 }
    requires count { count ≤ 256 }
    requires next { next.old.width ≡ length (group_down_shape spot.now.group) }
    requires buffers { buffers.old ≡ length (group_down_shape spot.now.group) }
    ensures down { (old old_next : List PlainRow) → AreLong (length (members spot.now.values)) old → length old_next ≡ count → olds.now ≡ flat_entries old → OnOk result (IsDown spot.now old old_next front.now.halves leads.new.items next.new.halves) }
    ensures long { OnOk result (length leads.new.items ≡ length front.now.halves * length (members spot.now.values)) }
    ensures shape { OnOk result (AreShaped (group_down_shape spot.now.group) next.new.halves) }
    ensures within { OnOk result (length next.new.halves ≤ spot.now.width) }
    ensures next_width { next.new.width ≡ next.old.width }
    ensures buffers { buffers.new ≡ buffers.old }
{
    mark_layer(
        spot,
        top_up,
        front,
        olds,
        count,
        &mut buffers.marks,
        &mut buffers.sets,
    )?;
    lead_on(
        alloc,
        spot,
        count,
        &buffers.marks,
        leads,
        next,
        &mut buffers.steps,
        &mut buffers.places,
    )?;
    Ok(())
}
