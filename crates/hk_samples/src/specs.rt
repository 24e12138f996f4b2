//! Bound specifications: which values `rise` accepts, as it was read and as a copy of it, and what a
//! step of it writes.

ghost use Rattle.std.specs.Prelude.{[], ◌∷◌, IfOk};
ghost use Rattle.hk_kinds.specs.Parts.{part_at};
ghost use Rattle.hk_kinds.specs.Shapes.{HasShape};

use crate::texts::{RISE, written};
use hk_base::List;
use hk_kinds::{Kind, Prop, State};
use hk_spec::{Bound, PropDecl};
use std::alloc::{AllocError, Global};

/// The specification `rise` for lists of so many values.
fn rising(alloc: Global, count: usize) -> Option<Bound> {
    let len = u16::try_from(count).ok()?;
    let spec = written(alloc, RISE.as_bytes())?;
    let [] = spec.params.as_slice() else {
        drop(spec);
        return None;
    };
    Some(Bound::new(spec, List::new(alloc), len))
}

/// Whether the values are accepted below a cost, where they are as many as they must be, each below
/// 128.
pub fn accepted_below(alloc: Global, bound: &Bound, values: &[u8], best: i64) -> Option<bool> {
    if values.len() != usize::from(bound.len) || values.iter().any(|value| *value > 127) {
        return None;
    }
    bound.accepts(alloc, values, best).ok()
}

/// The same of a specification that doesn't name the bound on the cost.
fn accepted(alloc: Global, bound: &Bound, values: &[u8]) -> Option<bool> {
    accepted_below(alloc, bound, values, 0)
}

/// Whether `rise` accepts the values.
fn rise_accepts(alloc: Global, values: &[u8]) -> Option<bool> {
    let bound = rising(alloc, values.len())?;
    let told = accepted(alloc, &bound, values);
    drop(bound);
    told
}

/// Whether a copy of a specification accepts the values.
fn copy_accepts(alloc: Global, bound: &Bound, values: &[u8]) -> Option<bool> {
    let copy = bound.copy(alloc).ok()?;
    let told = accepted(alloc, &copy, values);
    drop(copy);
    told
}

/// Whether a copy of `rise` accepts the values.
fn rise_copy_accepts(alloc: Global, values: &[u8]) -> Option<bool> {
    let bound = rising(alloc, values.len())?;
    let told = copy_accepts(alloc, &bound, values);
    drop(bound);
    told
}

#[test]
fn lists_that_rise_are_accepted(rt: HostRuntime) {
    let rows: [(&[u8], bool); 8] = [
        (&[], true),
        (&[127], true),
        (&[0, 1], true),
        (&[1, 1], false),
        (&[1, 0], false),
        (&[3, 3], false),
        (&[2, 3], true),
        (&[7; 256], false),
    ];
    for (values, told) in rows {
        let read = rise_accepts(rt.alloc(), values);
        let copied = rise_copy_accepts(rt.alloc(), values);
        assert_eq!(rt; [read, copied], [Some(told); 2], "{values:?}");
    }
}

/// A state of three properties, of which the second is a number.
fn state(alloc: Global, first: Prop, second: u8, third: Prop) -> Result<State, AllocError>
    ensures { IfOk result (λ state. HasShape (Kind.Min ∷ []) (part_at 1 1 state)) }
{
    let mut state = State::new(alloc);
    state.push(first)?;
    state.push(Prop::Num(i64::from(second)))?;
    state.push(third)?;
    Ok(state)
}

/// Writes the step over the value 7 at the second position to the second property of a state, where
/// the specification has one property and two positions.
fn step_second(bound: &Bound, from: &State, to: &mut State) -> bool
    requires from { HasShape (Kind.Min ∷ []) (part_at 1 1 from.now) }
    requires to { HasShape (Kind.Min ∷ []) (part_at 1 1 to.old) }
{
    let [
        PropDecl {
            kind: Kind::Min,
            ..
        },
    ] = bound.spec.down.as_slice()
    else {
        return false;
    };
    if bound.len < 2 {
        return false;
    }
    bound.step_down(1, 7, from, to, 1);
    true
}

/// Writes the step of `rise` to the second property of a state.
fn step_rise(alloc: Global, from: &State, to: &mut State) -> bool
    requires from { HasShape (Kind.Min ∷ []) (part_at 1 1 from.now) }
    requires to { HasShape (Kind.Min ∷ []) (part_at 1 1 to.old) }
{
    let Some(bound) = rising(alloc, 2) else {
        return false;
    };
    let stepped = step_second(&bound, from, to);
    drop(bound);
    stepped
}

/// What a state of three properties is after the step from another state.
fn stepped_from(alloc: Global, from: &State) -> Option<[Prop; 3]>
    requires from { HasShape (Kind.Min ∷ []) (part_at 1 1 from.now) }
{
    let mut to = state(alloc, Prop::Bits(5), 9, Prop::Pair(1, 2)).ok()?;
    if !step_rise(alloc, from, &mut to) {
        return None;
    }
    three(to.as_slice())
}

/// The properties, where they are three.
fn three(properties: &[Prop]) -> Option<[Prop; 3]> {
    match properties {
        [first, second, third] => Some([*first, *second, *third]),
        _ => None,
    }
}

/// What it is after the step from this one.
fn stepped(alloc: Global) -> Option<[Prop; 3]> {
    let from = state(alloc, Prop::Bits(6), 4, Prop::Num(8)).ok()?;
    stepped_from(alloc, &from)
}

#[test]
fn a_step_writes_its_part_alone(rt: HostRuntime) {
    let after = [Prop::Bits(5), Prop::Num(7), Prop::Pair(1, 2)];
    assert_eq!(rt; stepped(rt.alloc()), Some(after));
}
