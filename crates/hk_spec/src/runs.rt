//! The states of an exact run over a list of values. Each way out drops the states that are left by
//! a call, for the reason that `copies` gives.
ghost use Rattle.std.specs.Prelude.{◌≡◌, ℕ, ◌<◌, ◌↔◌, length, reverse, IsTrue, IfOk, All};
ghost use Rattle.hk_kinds.specs.Shapes.{HasShape};
ghost use Rattle.hk_spec.specs.Runs.{Accepts};
ghost use Rattle.hk_spec.specs.inside.UpStates.{exact_ups};
ghost use Rattle.hk_spec.specs.Specifications.{initial_values, down_shape, up_shape};
ghost use Rattle.hk_spec.specs.Steps.{down_step, up_step};

use crate::bindings::Bound;
use crate::parts::PropDecl;
use hk_base::pair;
use hk_kinds::State;
use std::alloc::{AllocError, Global};

/// The state of the initial values of properties.
pub fn initial_state(alloc: Global, properties: &[PropDecl]) -> Result<State, AllocError>
    ensures { IfOk result (λ state. state ≡ initial_values properties.now) }
{
    let mut state = State::new(alloc);
    for property in properties {
        if let Err(refused) = state.push(property.init) {
            drop(state);
            return Err(refused);
        }
    }
    Ok(state)
}

/// The down state after a value at a position.
pub fn stepped_down(
    bound: &Bound,
    position: usize,
    value: u8,
    down: &State,
) -> Result<State, AllocError>
    requires position { position < bound.now.len }
    requires value { value < 128 }
    requires shape { HasShape (down_shape bound.now.spec) down.now }
    ensures step { IfOk result (λ next. next ≡ down_step bound.now position value down.now) }
    ensures shape { IfOk result (λ next. HasShape (down_shape bound.now.spec) next) }
{
    prove!(position < usize::from(bound.len));
    let mut next = down.copy()?;
    bound.write_down(position, value, &down.view(), &mut next, 0);
    Ok(next)
}

/// The up state before a value at a position.
pub fn stepped_up(
    bound: &Bound,
    position: usize,
    value: u8,
    up: &State,
) -> Result<State, AllocError>
    requires position { position < bound.now.len }
    requires value { value < 128 }
    requires shape { HasShape (up_shape bound.now.spec) up.now }
    ensures step { IfOk result (λ next. next ≡ up_step bound.now position value up.now) }
    ensures shape { IfOk result (λ next. HasShape (up_shape bound.now.spec) next) }
{
    prove!(position < usize::from(bound.len));
    let mut next = up.copy()?;
    bound.write_up(position, value, &up.view(), &mut next, 0);
    Ok(next)
}

/// The up states after each position, the last first.
pub fn up_states(alloc: Global, bound: &Bound, values: &[u8]) -> Result<Vec<State>, AllocError>
    requires length { length values.now ≡ bound.now.len }
    requires values { All (λ value. value < 128) values.now }
    ensures { IfOk result (λ ups. ups.items ≡ reverse (exact_ups bound.now 0 values.now)) }
{
    let spec = &bound.spec;
    let (mut ups, mut up) = pair(
        Vec::with_capacity(alloc, values.len()),
        initial_state(alloc, spec.up.as_slice()),
    )?;
    let mut position = values.len();
    'back: while position > 0 {
        position -= 1;
        match stepped_up(bound, position, values[position], &up) {
            Err(refused) => {
                drop(up);
                drop(ups);
                return Err(refused);
            }
            Ok(before) => match ups.push(up) {
                Err(refused) => {
                    drop(before);
                    drop(ups);
                    return Err(refused.into());
                }
                Ok(()) => up = before,
            },
        }
    }
    drop(up);
    Ok(ups)
}

/// Whether the exact run accepts the values, of its up states after each position, the last first,
/// and its down state before the first.
pub fn accepts_between(
    bound: &Bound,
    values: &[u8],
    best: i64,
    mut ups: Vec<State>,
    mut down: State,
) -> Result<bool, AllocError>
    requires length { length values.now ≡ bound.now.len }
    requires values { All (λ value. value < 128) values.now }
    requires ups { ups.items ≡ reverse (exact_ups bound.now 0 values.now) }
    requires down { down ≡ initial_values bound.now.spec.down }
    ensures { IfOk result (λ accepted. IsTrue accepted ↔ Accepts bound.now best values.now) }
{
    prove!(values.len() <= usize::from(bound.len));
    for position in 0..values.len() {
        let Some(up) = ups.pop() else { unreachable!() };
        let value = values[position];
        if !bound.passes_view(position, value, &down.view(), &up.view(), best) {
            drop(up);
            drop(down);
            drop(ups);
            return Ok(false);
        }
        drop(up);
        match stepped_down(bound, position, value, &down) {
            Err(refused) => {
                drop(down);
                drop(ups);
                return Err(refused);
            }
            Ok(next) => {
                drop(down);
                down = next;
            }
        }
    }
    drop(down);
    drop(ups);
    Ok(true)
}
