//! Groups: specifications side by side, each about some of the group's variables.
ghost use Rattle.std.specs.Prelude.{◌≡◌, ◌<◌, length, slice_index, All, IfOk};
ghost use Rattle.hk_group.specs.Composed.{IsKept, places_of, plan_of};
ghost use Rattle.hk_group.specs.Groups.{IsGroup, IsPart, down_shape_of, up_shape_of, group_down_shape, group_up_shape, group_initial_down, group_initial_up, group_down, group_up, group_passes};
ghost use Rattle.hk_kinds.specs.Shapes.{HasShape};

use crate::beginning::{begin_downs, begin_ups};
use crate::parts::GroupPart;
use crate::plan::plan_of;
use crate::shapes::{down_shape_of, up_shape_of};
use crate::stepping::{write_downs, write_ups};
use crate::testing::parts_pass;
use crate::union::union_of;
use hk_base::List;
use hk_kinds::{Shape1, State, StateView};
use std::alloc::{AllocError, Global};
use std::marker::Model;

/// Specifications side by side. Each is about some of the group's variables, which stand in order
/// and have a layer each.
#[derive(Debug, Drop)]
pub struct Group {
    vars: List<u16>,
    parts: List<GroupPart>,
    places: List<Option<u16>>,
    down: Shape1,
    up: Shape1,
}

impl Model for Group {
    ghost use Rattle.std.specs.Coded.{codes};
    ghost use Rattle.hk_group.specs.contracts.parts.GroupPart as member;
    ghost use Rattle.hk_group.specs.Composed.{IsKept};
    ghost use Rattle.hk_group.specs.Groups.{PlainGroup};

    ghost Value = { PlainGroup };

    ghost coded = { Prim.hlevel (codes, member.the_row.coded) };

    ghost view = { λ g. record { vars = g.vars; parts = g.parts } };

    ghost invariant = { λ g. IsKept (record { vars = g.vars; parts = g.parts }) g.places g.down g.up };
}

impl Group {
    /// The group of these parts.
    pub(crate) fn of_parts(alloc: Global, parts: List<GroupPart>) -> Result<Group, AllocError>
        requires some { 0 < length parts }
        requires rules { All IsPart parts }
        ensures parts { IfOk result (λ group. group.parts ≡ parts) }
        ensures rules { IfOk result IsGroup }
    {
        match union_of(alloc, parts.as_slice()) {
            Ok(vars) => Group::with_vars(alloc, parts, vars),
            Err(refused) => {
                drop(parts);
                Err(refused)
            }
        }
    }

    /// The group of these parts and of all of their variables.
    fn with_vars(
        alloc: Global,
        parts: List<GroupPart>,
        vars: List<u16>,
    ) -> Result<Group, AllocError>
        requires { IsGroup (record { vars = vars; parts = parts }) }
        ensures { IfOk result (λ group. group ≡ record { vars = vars; parts = parts }) }
    {
        match kept_of(alloc, parts.as_slice(), vars.as_slice()) {
            Ok((places, down, up)) => Ok(Group {
                vars,
                parts,
                places,
                down,
                up,
            }),
            Err(refused) => {
                drop(vars);
                drop(parts);
                Err(refused)
            }
        }
    }

    /// The variables of the group, of which each has a layer, in order.
    pub fn vars(&self) -> &[u16]
        ensures vars { result.now ≡ self.now.vars }
        ensures rules { IsGroup self.now }
    {
        self.vars.as_slice()
    }

    /// The shapes of the down states and of the up states.
    pub fn shapes(&self) -> (&Shape1, &Shape1)
        ensures down { result.0.now ≡ group_down_shape self.now }
        ensures up { result.1.now ≡ group_up_shape self.now }
    {
        (&self.down, &self.up)
    }

    /// Writes the down state before the first layer over all properties of `to`.
    pub fn init_down(&self, to: &mut State)
        requires { length to.old ≡ length (group_down_shape self.now) }
        ensures state { to.new ≡ group_initial_down self.now }
        ensures shape { HasShape (group_down_shape self.now) to.new }
    {
        begin_downs(self.parts.as_slice(), to);
    }

    /// Writes the up state after the last layer over all properties of `to`.
    pub fn init_up(&self, to: &mut State)
        requires { length to.old ≡ length (group_up_shape self.now) }
        ensures state { to.new ≡ group_initial_up self.now }
        ensures shape { HasShape (group_up_shape self.now) to.new }
    {
        begin_ups(self.parts.as_slice(), to);
    }

    /// Writes the down state after a value at a layer, of the one before it, over all properties of
    /// `to`.
    pub fn step_down(&self, layer: usize, value: u8, from: &State, to: &mut State)
        requires layer { layer < length self.now.vars }
        requires value { value < 128 }
        requires from { HasShape (group_down_shape self.now) from.now }
        requires to { length to.old ≡ length (group_down_shape self.now) }
        ensures step { to.new ≡ group_down self.now layer value from.now }
        ensures shape { HasShape (group_down_shape self.now) to.new }
    {
        self.write_down(layer, value, &from.view(), to);
    }

    /// Writes the up state before a value at a layer, of the one after it, over all properties of
    /// `to`.
    pub fn step_up(&self, layer: usize, value: u8, from: &State, to: &mut State)
        requires layer { layer < length self.now.vars }
        requires value { value < 128 }
        requires from { HasShape (group_up_shape self.now) from.now }
        requires to { length to.old ≡ length (group_up_shape self.now) }
        ensures step { to.new ≡ group_up self.now layer value from.now }
        ensures shape { HasShape (group_up_shape self.now) to.new }
    {
        self.write_up(layer, value, &from.view(), to);
    }

    /// Whether the test of a layer holds of a value, the down state before it and the up state after
    /// it.
    pub fn passes(&self, layer: usize, value: u8, down: &State, up: &State, best: i64) -> bool
        requires layer { layer < length self.now.vars }
        requires value { value < 128 }
        requires down { HasShape (group_down_shape self.now) down.now }
        requires up { HasShape (group_up_shape self.now) up.now }
        ensures { result ≡ group_passes self.now layer value best down.now up.now }
    {
        self.passes_view(layer, value, &down.view(), &up.view(), best)
    }

    /// `step_down` of a view.
    pub fn write_down(&self, layer: usize, value: u8, from: &StateView<'_>, to: &mut State)
        requires layer { layer < length self.now.vars }
        requires value { value < 128 }
        requires from { HasShape (group_down_shape self.now) from.now }
        requires to { length to.old ≡ length (group_down_shape self.now) }
        ensures step { to.new ≡ group_down self.now layer value from.now }
        ensures shape { HasShape (group_down_shape self.now) to.new }
    {
        let (parts, places) = self.standing(layer);
        write_downs(parts, places, value, from, to);
    }

    /// `step_up` of a view.
    pub fn write_up(&self, layer: usize, value: u8, from: &StateView<'_>, to: &mut State)
        requires layer { layer < length self.now.vars }
        requires value { value < 128 }
        requires from { HasShape (group_up_shape self.now) from.now }
        requires to { length to.old ≡ length (group_up_shape self.now) }
        ensures step { to.new ≡ group_up self.now layer value from.now }
        ensures shape { HasShape (group_up_shape self.now) to.new }
    {
        let (parts, places) = self.standing(layer);
        write_ups(parts, places, value, from, to);
    }

    /// `passes` of views.
    pub fn passes_view(
        &self,
        layer: usize,
        value: u8,
        down: &StateView<'_>,
        up: &StateView<'_>,
        best: i64,
    ) -> bool
        requires layer { layer < length self.now.vars }
        requires value { value < 128 }
        requires down { HasShape (group_down_shape self.now) down.now }
        requires up { HasShape (group_up_shape self.now) up.now }
        ensures { result ≡ group_passes self.now layer value best down.now up.now }
    {
        let (parts, places) = self.standing(layer);
        parts_pass(parts, places, value, down, up, best)
    }

    /// The parts, and the places of a layer's variable in their scopes.
    fn standing(&self, layer: usize) -> (&[GroupPart], &[Option<u16>])
        requires { layer < length self.now.vars }
        ensures parts { result.0.now ≡ self.now.parts }
        ensures places { result.1.now ≡ places_of self.now.parts (slice_index self.now.vars layer) }
        ensures rules { IsGroup self.now }
    {
        (self.parts.as_slice(), self.places_at(layer))
    }

    /// The places of a layer's variable in the scopes of the parts.
    fn places_at(&self, layer: usize) -> &[Option<u16>]
        requires { layer < length self.now.vars }
        ensures { result.now ≡ places_of self.now.parts (slice_index self.now.vars layer) }
    {
        let count = self.parts.as_slice().len();
        let places = self.places.as_slice();
        let (_, rest) = places.split_at(layer * count);
        let (row, _) = rest.split_at(count);
        row
    }
}

/// The plan of parts over their variables, and the shapes of both sides.
fn kept_of(
    alloc: Global,
    parts: &[GroupPart],
    vars: &[u16],
) -> Result<(List<Option<u16>>, Shape1, Shape1), AllocError>
    ensures plan { IfOk result (λ kept. kept.0 ≡ plan_of parts.now vars.now) }
    ensures down { IfOk result (λ kept. kept.1 ≡ down_shape_of parts.now) }
    ensures up { IfOk result (λ kept. kept.2 ≡ up_shape_of parts.now) }
{
    let (down, up) = shapes_of(alloc, parts)?;
    match plan_of(alloc, parts, vars) {
        Ok(places) => Ok((places, down, up)),
        Err(refused) => {
            drop(down);
            drop(up);
            Err(refused)
        }
    }
}

/// The shapes of the states of parts.
fn shapes_of(alloc: Global, parts: &[GroupPart]) -> Result<(Shape1, Shape1), AllocError>
    ensures down { IfOk result (λ shapes. shapes.0 ≡ down_shape_of parts.now) }
    ensures up { IfOk result (λ shapes. shapes.1 ≡ up_shape_of parts.now) }
{
    let down = down_shape_of(alloc, parts)?;
    match up_shape_of(alloc, parts) {
        Ok(up) => Ok((down, up)),
        Err(refused) => {
            drop(down);
            Err(refused)
        }
    }
}
