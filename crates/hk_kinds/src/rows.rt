//! Lists of states of one length, in one list of properties.
ghost use Rattle.std.specs.Prelude.{◌≡◌, ◌<◌, ◌^◌, [], ◌∷◌, ◌++◌, length, slice_index_or, slice_set, OnOk, OnErr};
ghost use Rattle.hk_kinds.specs.Joins.{state_join};
ghost use Rattle.hk_kinds.specs.Orders.{state_order};

use crate::flat::{join_at, row_at, write_at};
use crate::properties::Prop;
use crate::shapes::Shape1;
use crate::views::StateView;
use std::alloc::{AllocError, Global};
use std::cmp::Ordering;
use std::marker::Model;

/// States of as many properties each as the width says. They take one piece of memory, in which the
/// properties of one state follow those of the state before.
#[derive(Debug, Drop)]
pub struct States {
    properties: Vec<Prop>,
    width: usize,
    // States without properties are counted too.
    count: usize,
}

impl Model for States {
    ghost use Rattle.std.specs.Prelude.{◌≡◌, ◌*◌, length};
    ghost use Rattle.hk_kinds.specs.Rows.{Rows, rows_of};

    ghost Value = { Rows };

    ghost view = { λ states. record { width = states.width; rows = rows_of states.count states.width states.properties.items } };

    ghost invariant = { λ states. length states.properties.items ≡ states.count * states.width };
}

impl States {
    /// No states; those that are pushed will have `width` properties each.
    pub fn new(alloc: Global, width: usize) -> States
        ensures { result ≡ record { width = width; rows = [] } }
    {
        States {
            properties: Vec::new(alloc),
            width,
            count: 0,
        }
    }

    /// How many properties each state has.
    pub fn width(&self) -> usize
        ensures { result ≡ self.now.width }
    {
        self.width
    }

    /// How many states there are.
    pub fn len(&self) -> usize
        ensures { result ≡ length self.now.rows }
    {
        self.count
    }

    /// Takes all states out, and keeps the memory for others.
    pub fn clear(&mut self)
        ensures { self.new ≡ record self.old { rows = [] } }
    {
        self.properties.clear();
        self.count = 0;
    }

    /// A view of the state at this place.
    pub fn at(&self, i: usize) -> StateView<'_>
        requires { i < length self.now.rows }
        ensures row { result ≡ slice_index_or self.now.rows i [] }
        ensures width { length result ≡ self.now.width }
    {
        StateView::of(row_at(self.properties.as_slice(), i, self.width))
    }

    /// Adds a state at the end; a refused one changes nothing.
    pub fn push(&mut self, state: &StateView<'_>) -> Result<(), AllocError>
        requires width { length state.now ≡ self.old.width }
        requires few { length self.old.rows < 2 ^ 32 }
        ensures ok { OnOk result (self.new ≡ record self.old { rows = self.old.rows ++ state.now ∷ [] }) }
        ensures err { OnErr result (self.new ≡ self.old) }
    {
        self.properties.extend_from_slice(state.as_slice())?;
        self.count += 1;
        Ok(())
    }

    /// Puts another state in the place of the one there.
    pub fn write_row(&mut self, i: usize, state: &StateView<'_>)
        requires place { i < length self.old.rows }
        requires width { length state.now ≡ self.old.width }
        ensures { self.new ≡ record self.old { rows = slice_set self.old.rows i state.now } }
    {
        write_at(self.properties.as_mut_slice(), i, state.as_slice());
    }

    /// Joins this state into the one at the place, by the kinds of their shape.
    pub fn join_row(&mut self, i: usize, state: &StateView<'_>, shape: &Shape1)
        requires place { i < length self.old.rows }
        requires width { length state.now ≡ self.old.width }
        requires kinds { length shape.now ≡ self.old.width }
        ensures { self.new ≡ record self.old { rows = slice_set self.old.rows i (state_join shape.now (slice_index_or self.old.rows i []) state.now) } }
    {
        join_at(
            shape.as_slice(),
            self.properties.as_mut_slice(),
            i,
            state.as_slice(),
        );
    }

    /// The order of the states at two places.
    pub fn compare(&self, i: usize, j: usize) -> Ordering
        requires first { i < length self.now.rows }
        requires second { j < length self.now.rows }
        ensures { result ≡ state_order (slice_index_or self.now.rows i []) (slice_index_or self.now.rows j []) }
    {
        self.at(i).compare(&self.at(j))
    }
}
