//! States: lists of properties, which join and cover property by property.
ghost use Rattle.std.specs.Prelude.{◌≡◌, ◌<◌, ◌↔◌, [], ◌∷◌, ◌++◌, ◌≤◌, length, drop, slice_set, IsTrue, IfOk, OnOk, OnErr};
ghost use Rattle.hk_kinds.specs.Covers.{StateCovers, state_covers};
ghost use Rattle.hk_kinds.specs.Joins.{state_join};
ghost use Rattle.hk_kinds.specs.Orders.{state_order};
ghost use Rattle.hk_kinds.specs.Parts.{with_part};
ghost use Rattle.hk_kinds.specs.Shapes.{HasShape};
ghost use Rattle.hk_kinds.specs.Tops.{top_state};

use crate::flat::write_over;
use crate::kinds::Kind;
use crate::properties::{Prop, covers_property, join_properties};
use crate::shapes::Shape1;
use crate::views::StateView;
use smallvec::SmallVec;
use std::alloc::{AllocError, Global};
use std::cmp::Ordering;
use std::marker::Model;

/// A list of properties; a few of them need no memory.
#[derive(Debug, Drop)]
pub struct State {
    properties: SmallVec<Prop, 4>,
}

impl Model for State {
    ghost use Rattle.std.specs.Prelude.{List};
    ghost use Rattle.hk_kinds.specs.declared.properties.Prop.{Prop};

    ghost Value = { List Prop };

    ghost view = { λ state. state.properties.items };
}

impl State {
    /// The state with no property.
    pub fn new(alloc: Global) -> State
        ensures { result ≡ [] }
    {
        State {
            properties: SmallVec::new(alloc),
        }
    }

    /// Adds a property at the end; a refused one changes nothing.
    pub fn push(&mut self, property: Prop) -> Result<(), AllocError>
        ensures ok { OnOk result (self.new ≡ self.old ++ property ∷ []) }
        ensures err { OnErr result (self.new ≡ self.old) }
    {
        self.properties.push(property)?;
        Ok(())
    }

    /// The properties, first to last.
    pub fn as_slice(&self) -> &[Prop]
        ensures { result.now ≡ self.now }
    {
        self.properties.as_slice()
    }

    /// A view of the state, to read it.
    pub fn view(&self) -> StateView<'_>
        ensures { result ≡ self.now }
    {
        StateView::of(self.properties.as_slice())
    }

    /// Changes the property at this place alone.
    pub fn set(&mut self, at: usize, property: Prop)
        requires { at < length self.old }
        ensures { self.new ≡ slice_set self.old at property }
    {
        self.properties.as_mut_slice()[at] = property;
    }

    /// Writes properties over those from this place on; all others stay.
    pub fn write_part(&mut self, first: usize, part: &StateView<'_>)
        requires { length part.now ≤ length (drop first self.old) }
        ensures { self.new ≡ with_part first part.now self.old }
    {
        let part = part.as_slice();
        if part.is_empty() {
            return;
        }
        write_over(self.properties.as_mut_slice(), first, part);
    }

    /// An equal state.
    pub fn copy(&self) -> Result<State, AllocError>
        ensures { IfOk result (λ state. state ≡ self.now) }
    {
        Ok(State {
            properties: SmallVec::from_slice(
                *self.properties.allocator(),
                self.properties.as_slice(),
            )?,
        })
    }

    /// The state that covers every state of the shape.
    pub fn top(alloc: Global, shape: &Shape1) -> Result<State, AllocError>
        ensures { IfOk result (λ state. state ≡ top_state shape.now) }
    {
        let mut state = State::new(alloc);
        for kind in shape.as_slice() {
            state.push(kind.top())?;
        }
        Ok(state)
    }

    /// Becomes the join with `other`.
    pub fn join_into(&mut self, other: &State, shape: &Shape1)
        requires mine { HasShape shape.now self.old }
        requires theirs { HasShape shape.now other.now }
        ensures join { self.new ≡ state_join shape.now self.old other.now }
        ensures shape { HasShape shape.now self.new }
    {
        join_all(
            shape.as_slice(),
            self.properties.as_mut_slice(),
            other.as_slice(),
        );
    }

    /// Whether this state covers `other`: the join with it is this state.
    pub fn covers(&self, other: &State, shape: &Shape1) -> bool
        requires mine { HasShape shape.now self.now }
        requires theirs { HasShape shape.now other.now }
        ensures covers { IsTrue result ↔ StateCovers shape.now self.now other.now }
        ensures joins { IsTrue result ↔ (state_join shape.now self.now other.now ≡ self.now) }
    {
        covers_all(shape.as_slice(), self.as_slice(), other.as_slice())
    }

    /// The order of states.
    pub fn compare(&self, other: &State) -> Ordering
        ensures { result ≡ state_order self.now other.now }
    {
        self.as_slice().cmp(other.as_slice())
    }
}

/// Joins each property with the one at its place.
pub fn join_all(kinds: &[Kind], mine: &mut [Prop], theirs: &[Prop])
    requires mine { length mine.old ≡ length kinds.now }
    requires theirs { length theirs.now ≡ length kinds.now }
    ensures { mine.new ≡ state_join kinds.now mine.old theirs.now }
{
    for i in 0..kinds.len() {
        mine[i] = join_properties(kinds[i], mine[i], theirs[i]);
    }
}

/// Whether each property covers the one at its place.
fn covers_all(kinds: &[Kind], mine: &[Prop], theirs: &[Prop]) -> bool
    requires mine { length mine.now ≡ length kinds.now }
    requires theirs { length theirs.now ≡ length kinds.now }
    ensures { result ≡ state_covers kinds.now mine.now theirs.now }
{
    for i in 0..kinds.len() {
        if !covers_property(kinds[i], mine[i], theirs[i]) {
            return false;
        }
    }
    true
}
