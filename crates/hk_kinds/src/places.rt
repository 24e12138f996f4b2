//! The distinct states of a list in their order, and the place of each state among them.
ghost use Rattle.std.specs.Prelude.{◌≡◌, ◌<◌, ◌^◌, ◌↔◌, ◌-◌, [], length, slice_index_or, IsTrue, OnOk};
ghost use Rattle.std.specs.declared.cmp.Ordering.TheVariants.{Less};
ghost use Rattle.hk_base.specs.Lists.{IsFrontOf};
ghost use Rattle.hk_kinds.specs.Distinct.{Ascends, IsPlaced, distinct_states, insert_state};
ghost use Rattle.hk_kinds.specs.inside.Keys.{IsLast, IsSorting, key_numbers};
ghost use Rattle.hk_kinds.specs.Orders.{state_order};

use crate::keys::{Key, sorted_keys};
use crate::rows::States;
use crate::views::StateView;
use std::alloc::{AllocError, Global};
use std::cmp::Ordering;

/// Writes the distinct states in their order to `steps`, and to `places` the place among them of each
/// state, first to last. What stood in the two before is taken out. Where memory is refused, nothing is
/// said of what the two hold, but that `steps` keeps its width.
pub fn distinct(
    alloc: Global,
    states: &States,
    steps: &mut States,
    places: &mut Vec<usize>,
) -> Result<(), AllocError>
    requires width { steps.old.width ≡ states.now.width }
    requires few { length states.now.rows < 2 ^ 32 }
    ensures width { steps.new.width ≡ steps.old.width }
    ensures steps { OnOk result (steps.new.rows ≡ distinct_states states.now.rows) }
    ensures places { OnOk result (IsPlaced states.now.rows steps.new.rows places.new.items) }
{
    let keys = sorted_keys(alloc, states)?;
    steps.clear();
    places.clear();
    places.resize(states.len(), 0)?;
    place_steps(states, keys.as_slice(), steps, places.as_mut_slice())
}

/// Takes the states of sorted keys as steps, one after the other, and notes the place of each.
fn place_steps(
    states: &States,
    keys: &[Key<'_>],
    steps: &mut States,
    places: &mut [usize],
) -> Result<(), AllocError>
    requires width { steps.old.width ≡ states.now.width }
    requires few { length states.now.rows < 2 ^ 32 }
    requires none { steps.old.rows ≡ [] }
    requires long { length places.old ≡ length states.now.rows }
    requires sorting { IsSorting states.now.rows (key_numbers keys.now) }
    ensures width { steps.new.width ≡ steps.old.width }
    ensures steps { OnOk result (steps.new.rows ≡ distinct_states states.now.rows) }
    ensures places { OnOk result (IsPlaced states.now.rows steps.new.rows places.new) }
{
    for i in 0..keys.len() {
        let number = keys[i].number;
        take_step(&states.at(number), steps)?;
        places[number] = steps.len() - 1;
    }
    Ok(())
}

/// Takes a state as a step that isn't less than those before it; the last one isn't taken again.
fn take_step(state: &StateView<'_>, steps: &mut States) -> Result<(), AllocError>
    requires width { length state.now ≡ steps.old.width }
    requires few { length steps.old.rows < 2 ^ 32 }
    requires ascend { Ascends steps.old.rows }
    requires after { 0 < length steps.old.rows → state_order state.now (slice_index_or steps.old.rows (length steps.old.rows - 1) []) ≡ Less → ⊥ }
    ensures width { steps.new.width ≡ steps.old.width }
    ensures rows { OnOk result (steps.new.rows ≡ insert_state state.now steps.old.rows) }
    ensures last { OnOk result (IsLast state.now steps.new.rows) }
    ensures keeps { OnOk result (IsFrontOf steps.old.rows steps.new.rows) }
{
    if is_last(state, steps) {
        return Ok(());
    }
    steps.push(state)?;
    Ok(())
}

/// Whether the state is the last step.
fn is_last(state: &StateView<'_>, steps: &States) -> bool
    ensures { IsTrue result ↔ IsLast state.now steps.now.rows }
{
    let count = steps.len();
    if count == 0 {
        return false;
    }
    matches!(steps.at(count - 1).compare(state), Ordering::Equal)
}
