//! States that are lent, and hold the properties that a test writes out. Whether these have the shape is
//! judged as it runs.

ghost use Rattle.std.specs.Prelude.{◌≡◌, IsTrue};
ghost use Rattle.hk_kinds.specs.Limits.{IsWithinLimit};
ghost use Rattle.hk_kinds.specs.Shapes.{HasShape, IsOfKind};

use hk_base::LIM;
use hk_kinds::{Kind, Prop, State};

/// Whether a number is within the limit.
fn is_within(n: i64) -> bool
    ensures { IsTrue result → IsWithinLimit n }
{
    -LIM <= n && n <= LIM
}

/// Whether a property is of a kind.
fn is_of_kind(kind: Kind, property: Prop) -> bool
    ensures { IsTrue result → IsOfKind kind property }
{
    match (kind, property) {
        (Kind::Min, Prop::Num(n)) => is_within(n),
        (Kind::Max, Prop::Num(n)) => is_within(n),
        (Kind::Interval, Prop::Pair(low, high)) => is_within(low) && is_within(high),
        (Kind::SomeBits, Prop::Bits(_)) => true,
        (Kind::AllBits, Prop::Bits(_)) => true,
        _ => false,
    }
}

/// Gives a state another property at a place, where it is there and the property is of its kind.
fn put(state: &mut State, kinds: &[Kind], at: usize, property: Prop) -> bool
    requires { HasShape kinds.now state.old }
    ensures { HasShape kinds.now state.new }
{
    if at >= kinds.len() || at >= state.as_slice().len() || !is_of_kind(kinds[at], property) {
        return false;
    }
    state.set(at, property);
    true
}

/// Gives a state these properties, and says whether they are of its shape.
pub fn fill(state: &mut State, kinds: &[Kind], properties: &[Prop]) -> bool
    requires { HasShape kinds.now state.old }
    ensures { HasShape kinds.now state.new }
{
    for at in 0..properties.len() {
        if !put(state, kinds, at, properties[at]) {
            return false;
        }
    }
    properties.len() == kinds.len()
}
