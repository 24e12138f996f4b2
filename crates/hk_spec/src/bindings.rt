//! Specifications with arguments: their steps, their test and their exact run.
ghost use Rattle.std.specs.Prelude.{◌≡◌, ℕ, ◌<◌, ◌≤◌, ◌↔◌, length, drop, IsTrue, IfOk, All};
ghost use Rattle.hk_kinds.specs.Parts.{with_part};
ghost use Rattle.hk_kinds.specs.Shapes.{HasShape};
ghost use Rattle.hk_spec.specs.Runs.{Accepts};
ghost use Rattle.hk_spec.specs.Specifications.{IsBound, down_shape, up_shape};
ghost use Rattle.hk_spec.specs.Steps.{down_part, up_part, down_step, up_step, test_passes};

use crate::arguments::Arg;
use crate::copies::copy_list;
use crate::runs::{accepts_between, initial_state, up_states};
use crate::settings::Setting;
use crate::specification::Spec;
use crate::steps::write_steps;
use crate::values::holds;
use hk_base::{List, pair};
use hk_kinds::{State, StateView};
use std::alloc::{AllocError, Global};
use std::marker::Model;

/// A specification with arguments, for lists of `len` values. Its state may be a part of a longer
/// state, and begins there at the place `first`.
#[derive(Debug, Drop)]
pub struct Bound {
    pub spec: Spec,
    pub args: List<Arg>,
    pub len: u16,
}

/// Several of them, as the rows of one constraint.
pub type Bounds = List<Bound>;

impl Model for Bound {
    ghost use Rattle.std.specs.Coded.{codes};
    ghost use Rattle.hk_spec.specs.contracts.arguments.Arg as argument;
    ghost use Rattle.hk_spec.specs.contracts.specification.Spec as specification;
    ghost use Rattle.hk_spec.specs.Specifications.{BoundSpecification, IsBound};

    ghost Value = { BoundSpecification };

    ghost coded = { Prim.hlevel (codes, argument.the_row.coded, specification.the_row.coded) };

    ghost view = { λ b. record { spec = b.spec; args = b.args; len = b.len } };

    ghost invariant = { λ b. IsBound (record { spec = b.spec; args = b.args; len = b.len }) };
}

impl Bound {
    /// A specification with arguments that fit it, for lists of `len` values.
    pub fn new(spec: Spec, args: List<Arg>, len: u16) -> Bound
        requires { IsBound (record { spec = spec; args = args; len = len }) }
        ensures { result ≡ record { spec = spec; args = args; len = len } }
    {
        Bound { spec, args, len }
    }

    /// An equal value.
    pub fn copy(&self, alloc: Global) -> Result<Bound, AllocError>
        ensures { IfOk result (λ bound. bound ≡ self.now) }
    {
        match pair(
            self.spec.copy(alloc),
            copy_list(alloc, self.args.as_slice()),
        ) {
            Ok((spec, args)) => Ok(Bound {
                spec,
                args,
                len: self.len,
            }),
            Err(refused) => Err(refused),
        }
    }

    /// Writes the down state after a value at a position, of the one before it, which is `from`, over
    /// the properties of `to` from the place `first` on; all others stay.
    pub fn write_down(
        &self,
        at: usize,
        value: u8,
        from: &StateView<'_>,
        to: &mut State,
        first: usize,
    )
        requires position { at < self.now.len }
        requires value { value < 128 }
        requires from { HasShape (down_shape self.now.spec) from.now }
        requires room { length self.now.spec.down ≤ length (drop first to.old) }
        ensures { to.new ≡ with_part first (down_step self.now at value from.now) to.old }
    {
        let spec = &self.spec;
        let setting = Setting {
            positions: self.len,
            position: at as u16,
            value,
            best: 0,
            args: self.args.as_slice(),
            down: from.copy(),
            up: StateView::empty(),
        };
        write_steps(spec.down_step.as_slice(), &setting, to, first);
    }

    /// Writes the up state before a value at a position, of the one after it, which is `from`, over
    /// the properties of `to` from the place `first` on; all others stay.
    pub fn write_up(&self, at: usize, value: u8, from: &StateView<'_>, to: &mut State, first: usize)
        requires position { at < self.now.len }
        requires value { value < 128 }
        requires from { HasShape (up_shape self.now.spec) from.now }
        requires room { length self.now.spec.up ≤ length (drop first to.old) }
        ensures { to.new ≡ with_part first (up_step self.now at value from.now) to.old }
    {
        let spec = &self.spec;
        let setting = Setting {
            positions: self.len,
            position: at as u16,
            value,
            best: 0,
            args: self.args.as_slice(),
            down: StateView::empty(),
            up: from.copy(),
        };
        write_steps(spec.up_step.as_slice(), &setting, to, first);
    }

    /// Whether the test holds of a value at a position, the down state before it and the up state
    /// after it.
    pub fn passes_view(
        &self,
        at: usize,
        value: u8,
        down: &StateView<'_>,
        up: &StateView<'_>,
        best: i64,
    ) -> bool
        requires position { at < self.now.len }
        requires value { value < 128 }
        requires down { HasShape (down_shape self.now.spec) down.now }
        requires up { HasShape (up_shape self.now.spec) up.now }
        ensures { result ≡ test_passes self.now at value down.now up.now best }
    {
        let spec = &self.spec;
        let setting = Setting {
            positions: self.len,
            position: at as u16,
            value,
            best,
            args: self.args.as_slice(),
            down: down.copy(),
            up: up.copy(),
        };
        holds(&spec.test, &setting)
    }

    /// Writes the down state after a value at a position, of the one before it in `from`, over the
    /// properties of `to`; all others stay.
    pub fn step_down(&self, at: usize, value: u8, from: &State, to: &mut State, first: usize)
        requires position { at < self.now.len }
        requires value { value < 128 }
        requires from { HasShape (down_shape self.now.spec) (down_part self.now first from.now) }
        requires to { HasShape (down_shape self.now.spec) (down_part self.now first to.old) }
        ensures step { to.new ≡ with_part first (down_step self.now at value (down_part self.now first from.now)) to.old }
        ensures shape { HasShape (down_shape self.now.spec) (down_part self.now first to.new) }
    {
        let spec = &self.spec;
        let part = from.view().part(first, spec.down.as_slice().len());
        self.write_down(at, value, &part, to, first);
    }

    /// Writes the up state before a value at a position, of the one after it in `from`, over the
    /// properties of `to`; all others stay.
    pub fn step_up(&self, at: usize, value: u8, from: &State, to: &mut State, first: usize)
        requires position { at < self.now.len }
        requires value { value < 128 }
        requires from { HasShape (up_shape self.now.spec) (up_part self.now first from.now) }
        requires to { HasShape (up_shape self.now.spec) (up_part self.now first to.old) }
        ensures step { to.new ≡ with_part first (up_step self.now at value (up_part self.now first from.now)) to.old }
        ensures shape { HasShape (up_shape self.now.spec) (up_part self.now first to.new) }
    {
        let spec = &self.spec;
        let part = from.view().part(first, spec.up.as_slice().len());
        self.write_up(at, value, &part, to, first);
    }

    /// Whether the test holds of a value at a position, the down state before it, which begins at
    /// the place `first_down` of `down`, and the up state after it, at `first_up` of `up`.
    pub fn passes(
        &self,
        at: usize,
        value: u8,
        down: &State,
        first_down: usize,
        up: &State,
        first_up: usize,
        best: i64,
    ) -> bool
        requires position { at < self.now.len }
        requires value { value < 128 }
        requires down { HasShape (down_shape self.now.spec) (down_part self.now first_down down.now) }
        requires up { HasShape (up_shape self.now.spec) (up_part self.now first_up up.now) }
        ensures { result ≡ test_passes self.now at value (down_part self.now first_down down.now) (up_part self.now first_up up.now) best }
    {
        let spec = &self.spec;
        let down = down.view().part(first_down, spec.down.as_slice().len());
        let up = up.view().part(first_up, spec.up.as_slice().len());
        self.passes_view(at, value, &down, &up, best)
    }

    /// Whether the exact run accepts the values: at each position the test holds of the down state
    /// before it, the value, and the up state after it.
    pub fn accepts(&self, alloc: Global, values: &[u8], best: i64) -> Result<bool, AllocError>
        requires length { length values.now ≡ self.now.len }
        requires values { All (λ value. value < 128) values.now }
        ensures { IfOk result (λ accepted. IsTrue accepted ↔ Accepts self.now best values.now) }
    {
        let ups = up_states(alloc, self, values);
        let down = initial_state(alloc, self.spec.down.as_slice());
        match pair(ups, down) {
            Ok((ups, down)) => accepts_between(self, values, best, ups, down),
            Err(refused) => Err(refused),
        }
    }
}
