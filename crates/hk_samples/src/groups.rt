//! Groups of two parts with a variable in common: their variables, what a step does to the state of
//! each part, which part tests a layer, and scopes that no group is composed of.

ghost use Rattle.std.specs.Prelude.{◌≡◌, ◌∷◌, [], length, pos, IfOk};
ghost use Rattle.hk_kinds.specs.Shapes.{HasShape};
ghost use Rattle.hk_group.specs.Groups.{group_down_shape, group_up_shape};
ghost use Rattle.hk_spec.specs.Library.{among_bound, sum_bound};

use hk_base::{list_of, pair};
use hk_group::{Group, GroupFault, Scopes, compose};
use hk_kinds::{Prop, State};
use hk_lib::{among, sum};
use hk_spec::Bounds;
use hk_trees::list_of_two;
use std::alloc::{AllocError, Global};

/// How many of two values are 1, and the sum of the first and twice the second of two values.
fn bounds(alloc: Global) -> Result<Bounds, AllocError>
    ensures { IfOk result (λ bounds. bounds ≡ among_bound 2 2 (pos 1) (pos 2) ∷ sum_bound (pos 1 ∷ pos 2 ∷ []) (pos 0) (pos 9) ∷ []) }
{
    match pair(among(alloc, 2, 0b010, 1, 2), sum(alloc, &[1, 2], 0, 9)) {
        Ok(both) => list_of_two(alloc, both),
        Err(refused) => Err(refused),
    }
}

/// Two scopes of two variables each: 0 and 2, and 1 and another.
fn scopes(alloc: Global, last: u16) -> Result<Scopes, AllocError>
    ensures { IfOk result (λ scopes. scopes ≡ (0 ∷ 2 ∷ []) ∷ (1 ∷ last ∷ []) ∷ []) }
{
    match pair(list_of(alloc, &[0u16, 2]), list_of(alloc, &[1u16, last])) {
        Ok(both) => list_of_two(alloc, both),
        Err(refused) => Err(refused),
    }
}

/// The group of these specifications and scopes.
fn composed(alloc: Global, bounds: &Bounds, scopes: &Scopes, last: u16) -> Result<Group, GroupFault>
    requires bounds { bounds.now ≡ among_bound 2 2 (pos 1) (pos 2) ∷ sum_bound (pos 1 ∷ pos 2 ∷ []) (pos 0) (pos 9) ∷ [] }
    requires scopes { scopes.now ≡ (0 ∷ 2 ∷ []) ∷ (1 ∷ last ∷ []) ∷ [] }
{
    compose(alloc, bounds, scopes)
}

/// The group whose second scope ends with this variable.
fn grouped(alloc: Global, last: u16) -> Option<Result<Group, GroupFault>> {
    let (bounds, scopes) = pair(bounds(alloc), scopes(alloc, last)).ok()?;
    let group = composed(alloc, &bounds, &scopes, last);
    drop(bounds);
    drop(scopes);
    Some(group)
}

/// Whether the second scope doesn't rise.
fn is_refused(alloc: Global, last: u16) -> Option<bool> {
    match grouped(alloc, last)? {
        Ok(group) => {
            drop(group);
            Some(false)
        }
        Err(GroupFault::Scope) => Some(true),
        Err(GroupFault::Memory) => None,
    }
}

/// Three steps from the state at hand, by the values 1, 2 and 1; whether there are as many layers.
fn walked(group: &Group, from: &mut State, to: &mut State) -> bool
    requires from { HasShape (group_down_shape group.now) from.old }
    requires to { HasShape (group_down_shape group.now) to.old }
{
    if group.vars().len() != 3 {
        return false;
    }
    group.step_down(0, 1, from, to);
    group.step_down(1, 2, to, from);
    group.step_down(2, 1, from, to);
    true
}

/// The state after these steps, where it has two properties.
fn state_after(alloc: Global, group: &Group) -> Option<[Prop; 2]> {
    let (down, _) = group.shapes();
    let mut from = State::top(alloc, down).ok()?;
    let mut to = State::top(alloc, down).ok()?;
    group.init_down(&mut from);
    group.init_down(&mut to);
    if !walked(group, &mut from, &mut to) {
        return None;
    }
    match to.as_slice() {
        [first, second] => Some([*first, *second]),
        _ => None,
    }
}

/// Whether the test of a layer holds of a value between the initial states.
fn passes_between(group: &Group, down: &mut State, up: &mut State, layer: usize, value: u8) -> bool
    requires down { length down.old ≡ length (group_down_shape group.now) }
    requires up { length up.old ≡ length (group_up_shape group.now) }
{
    if layer >= group.vars().len() || value > 127 {
        return false;
    }
    group.init_down(down);
    group.init_up(up);
    group.passes(layer, value, down, up, 0)
}

/// The same between states that are made for it.
fn passes_at(alloc: Global, group: &Group, layer: usize, value: u8) -> Option<bool> {
    let (down_shape, up_shape) = group.shapes();
    let mut down = State::top(alloc, down_shape).ok()?;
    let mut up = State::top(alloc, up_shape).ok()?;
    Some(passes_between(group, &mut down, &mut up, layer, value))
}

/// The same of the group whose scopes rise.
fn is_passed(alloc: Global, layer: usize, value: u8) -> Option<bool> {
    match grouped(alloc, 2)? {
        Ok(group) => {
            let passed = passes_at(alloc, &group, layer, value);
            drop(group);
            passed
        }
        Err(_) => None,
    }
}

/// The state after the steps of the group whose scopes rise, with its variables.
fn walked_group(alloc: Global) -> Option<([Prop; 2], [u16; 3])> {
    match grouped(alloc, 2)? {
        Ok(group) => {
            let told = told_of(alloc, &group);
            drop(group);
            told
        }
        Err(_) => None,
    }
}

/// The state after the steps of a group, and its variables, where they are three.
fn told_of(alloc: Global, group: &Group) -> Option<([Prop; 2], [u16; 3])> {
    let [first, second, third] = group.vars() else {
        return None;
    };
    Some((state_after(alloc, group)?, [*first, *second, *third]))
}

#[test]
fn parts_step_on_their_own_layers(rt: HostRuntime) {
    let state = [Prop::Pair(2, 2), Prop::Pair(4, 4)];
    assert_eq!(rt; walked_group(rt.alloc()), Some((state, [0, 1, 2])));
}

#[test]
fn parts_test_on_their_own_layers(rt: HostRuntime) {
    for (layer, value, passed) in [
        (0, 1, true),
        (0, 0, false),
        (1, 9, true),
        (1, 10, false),
        (2, 1, true),
        (2, 2, false),
    ] {
        let found = is_passed(rt.alloc(), layer, value);
        assert_eq!(rt; found, Some(passed), "{value} at {layer}");
    }
}

#[test]
fn scopes_that_do_not_rise_are_refused(rt: HostRuntime) {
    for (last, refused) in [(2, false), (9, false), (1, true), (0, true)] {
        assert_eq!(rt; is_refused(rt.alloc(), last), Some(refused), "{last}");
    }
}
