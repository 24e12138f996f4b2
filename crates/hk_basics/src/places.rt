//! Lists of states: the distinct ones in their order, and the place of each state among them.

use hk_kinds::{Prop, State, StateView, States, distinct};
use std::alloc::{AllocError, Global};
use std::cmp::Ordering;
use std::test::Fail;

/// States of a number and a set.
type Rows = &'static [[Prop; 2]];

const ROWS: Rows = &[
    [Prop::Num(3), Prop::Bits(0b10)],
    [Prop::Num(1), Prop::Bits(0b101)],
    [Prop::Num(3), Prop::Bits(0b10)],
    [Prop::Num(1), Prop::Bits(0b10)],
    [Prop::Num(1), Prop::Bits(0b101)],
];

/// The distinct ones of these, least first.
const DISTINCT: Rows = &[
    [Prop::Num(1), Prop::Bits(0b10)],
    [Prop::Num(1), Prop::Bits(0b101)],
    [Prop::Num(3), Prop::Bits(0b10)],
];

/// Adds a state to fewer than ten of its length.
fn push_view(states: &mut States, state: &StateView<'_>) -> Result<(), AllocError> {
    if state.len() != states.width() || states.len() > 9 {
        return Err(AllocError);
    }
    states.push(state)
}

/// Adds the state of two properties.
fn push_row(alloc: Global, states: &mut States, row: &[Prop; 2]) -> Result<(), AllocError> {
    let mut state = State::new(alloc);
    let [first, second] = *row;
    state.push(first)?;
    state.push(second)?;
    push_view(states, &state.view())
}

/// Adds each of these states.
fn push_rows(alloc: Global, states: &mut States, rows: &[[Prop; 2]]) -> Result<(), AllocError> {
    for row in rows {
        push_row(alloc, states, row)?;
    }
    Ok(())
}

/// These states as a list.
fn states_of(alloc: Global, rows: &[[Prop; 2]]) -> Result<States, AllocError> {
    let mut states = States::new(alloc, 2);
    push_rows(alloc, &mut states, rows)?;
    Ok(states)
}

/// Whether the states of two lists are the same, first to last.
fn are_same(mine: &States, theirs: &States) -> bool {
    if mine.len() != theirs.len() {
        return false;
    }
    for i in 0..mine.len() {
        if !matches!(mine.at(i).compare(&theirs.at(i)), Ordering::Equal) {
            return false;
        }
    }
    true
}

/// The places of fewer than ten states among the distinct ones, which are written to `steps`.
fn placed(
    alloc: Global,
    states: &States,
    steps: &mut States,
    places: &mut Vec<usize>,
) -> Result<(), AllocError> {
    if steps.width() != states.width() || states.len() > 9 {
        return Err(AllocError);
    }
    distinct(alloc, states, steps, places)
}

/// Whether these are the distinct ones of the states, and the places of the states among them.
fn are_distinct(
    alloc: Global,
    states: &States,
    expected: &States,
    places: &[usize],
) -> Result<bool, AllocError> {
    let mut steps = States::new(alloc, 2);
    let mut found = Vec::new(alloc);
    placed(alloc, states, &mut steps, &mut found)?;
    Ok(are_same(&steps, expected) && found.as_slice() == places)
}

/// The same of rows.
fn is_row(
    alloc: Global,
    rows: &[[Prop; 2]],
    expected: &[[Prop; 2]],
    places: &[usize],
) -> Result<bool, AllocError> {
    let states = states_of(alloc, rows)?;
    let expected = states_of(alloc, expected)?;
    are_distinct(alloc, &states, &expected, places)
}

#[test]
fn distinct_states_are_placed(rt: HostRuntime) -> Result<(), Fail> {
    assert!(rt; is_row(rt.alloc(), ROWS, DISTINCT, &[2, 1, 2, 0, 1])?);
    assert!(rt; is_row(rt.alloc(), DISTINCT, DISTINCT, &[0, 1, 2])?);
    assert!(rt; is_row(rt.alloc(), &[], &[], &[])?);
    Ok(())
}
