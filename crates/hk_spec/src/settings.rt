//! What an expression is computed of.
ghost use Rattle.std.specs.Prelude.{◌≡◌, ℕ, ◌<◌, ◌^◌};
ghost use Rattle.hk_spec.specs.Settings.{state_of};

use crate::arguments::Arg;
use crate::expressions::Side;
use hk_kinds::StateView;
use std::marker::Model;

/// What an expression is computed of: a value at a position of a list of so many values, a bound on
/// the cost, the arguments of the specification, and its down and its up state.
#[derive(Drop)]
pub struct Setting<'a> {
    pub value: u8,
    pub position: u16,
    pub positions: u16,
    pub best: i64,
    pub args: &'a [Arg],
    pub down: StateView<'a>,
    pub up: StateView<'a>,
}

impl<'a> Model for Setting<'a> {
    ghost use Rattle.std.specs.Prelude.{◌<◌};
    ghost use Rattle.hk_spec.specs.Settings.{Setting as Computed};

    ghost Value = { Computed };

    ghost view = { λ s. record { value = s.value; position = s.position; positions = s.positions; best = s.best; args = s.args.now; down = s.down; up = s.up } };

    ghost invariant = { λ s. s.value < 128 };
}

impl<'a> Setting<'a> {
    /// The state of one side.
    pub fn state(&self, side: Side) -> &StateView<'a>
        ensures { result.now ≡ state_of self.now side }
    {
        match side {
            Side::Down => &self.down,
            Side::Up => &self.up,
        }
    }
}
