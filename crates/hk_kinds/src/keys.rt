//! Keys, by which the states of a list are sorted together with their numbers.
ghost use Rattle.std.specs.Prelude.{length, IfOk};
ghost use Rattle.hk_kinds.specs.inside.Keys.{AreKeysOf, IsSorting, key_numbers};

use crate::properties::Prop;
use crate::rows::States;
use std::alloc::{AllocError, Global};

/// A state and its number; equal states are told apart by their numbers.
#[derive(Clone, Copy, Debug, PartialEq, Eq, PartialOrd, Ord)]
pub struct Key<'a> {
    pub state: &'a [Prop],
    pub number: usize,
}

/// The keys of all states, in the order of states.
pub fn sorted_keys(alloc: Global, states: &States) -> Result<Vec<Key<'_>>, AllocError>
    ensures { IfOk result (λ keys. IsSorting states.now.rows (key_numbers keys.items)) }
{
    let mut keys = keys_of(alloc, states)?;
    keys.sort_unstable();
    Ok(keys)
}

/// The keys of all states, first to last.
fn keys_of(alloc: Global, states: &States) -> Result<Vec<Key<'_>>, AllocError>
    ensures { IfOk result (λ keys. AreKeysOf states.now.rows (length states.now.rows) keys.items) }
{
    let mut keys = Vec::with_capacity(alloc, states.len())?;
    for number in 0..states.len() {
        keys.push(Key {
            state: states.at(number).as_slice(),
            number,
        })?;
    }
    Ok(keys)
}
