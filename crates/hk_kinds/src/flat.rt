//! The parts of a list of properties in which states of one length follow one another.
ghost use Rattle.std.specs.Prelude.{◌≡◌, ◌+◌, ◌*◌, ◌≤◌, length};
ghost use Rattle.hk_kinds.specs.Joins.{state_join};
ghost use Rattle.hk_kinds.specs.Parts.{part_at, with_part};

use crate::kinds::Kind;
use crate::properties::Prop;
use crate::states::join_all;

/// The properties of the state at a place, where each has `width` of them.
pub fn row_at(properties: &[Prop], i: usize, width: usize) -> &[Prop]
    requires { i * width + width ≤ length properties.now }
    ensures { result.now ≡ part_at (i * width) width properties.now }
{
    let first = i * width;
    &properties[first..first + width]
}

/// Writes a state over the one at a place.
pub fn write_at(properties: &mut [Prop], i: usize, state: &[Prop])
    requires { i * length state.now + length state.now ≤ length properties.old }
    ensures { properties.new ≡ with_part (i * length state.now) state.now properties.old }
{
    write_over(properties, i * state.len(), state);
}

/// Writes properties over those from a place on.
pub fn write_over(properties: &mut [Prop], first: usize, part: &[Prop])
    requires { first + length part.now ≤ length properties.old }
    ensures { properties.new ≡ with_part first part.now properties.old }
{
    properties[first..first + part.len()].copy_from_slice(part);
}

/// Joins a state into the one at a place.
pub fn join_at(kinds: &[Kind], properties: &mut [Prop], i: usize, state: &[Prop])
    requires place { i * length kinds.now + length kinds.now ≤ length properties.old }
    requires width { length state.now ≡ length kinds.now }
    ensures { properties.new ≡ with_part (i * length kinds.now) (state_join kinds.now (part_at (i * length kinds.now) (length kinds.now) properties.old) state.now) properties.old }
{
    let first = i * kinds.len();
    join_all(kinds, &mut properties[first..first + kinds.len()], state);
}
