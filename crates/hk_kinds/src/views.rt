//! Views of states, to read them: of a `State`, or of one state in a row of states.
ghost use Rattle.std.specs.Prelude.{◌≡◌, ◌≤◌, [], length, drop, slice_get};
ghost use Rattle.hk_kinds.specs.Orders.{state_order};
ghost use Rattle.hk_kinds.specs.Parts.{part_at};
ghost use Rattle.hk_kinds.specs.Views.{number_of_property, low_of_property, high_of_property, set_of_property};

use crate::properties::Prop;
use std::cmp::Ordering;
use std::marker::Model;

/// One state to read, of a `State` or of a row of states.
#[derive(Debug, Drop)]
pub struct StateView<'a> {
    properties: &'a [Prop],
}

impl<'a> Model for StateView<'a> {
    ghost use Rattle.std.specs.Prelude.{List};
    ghost use Rattle.hk_kinds.specs.declared.properties.Prop.{Prop};

    ghost Value = { List Prop };

    ghost view = { λ state. state.properties.now };
}

impl<'a> StateView<'a> {
    /// The view of these properties.
    pub(crate) fn of(properties: &'a [Prop]) -> StateView<'a>
        ensures { result ≡ properties.now }
    {
        StateView { properties }
    }

    /// The properties, first to last.
    pub(crate) fn as_slice(&self) -> &'a [Prop]
        ensures { result.now ≡ self.now }
    {
        self.properties
    }

    /// The view of a state with no property.
    pub fn empty() -> StateView<'a>
        ensures { result ≡ [] }
    {
        StateView { properties: &[] }
    }

    /// An equal view.
    pub fn copy(&self) -> StateView<'a>
        ensures { result ≡ self.now }
    {
        StateView {
            properties: self.properties,
        }
    }

    /// How many properties the state has.
    pub fn len(&self) -> usize
        ensures { result ≡ length self.now }
    {
        self.properties.len()
    }

    /// The number of the Min or Max property at this place; 0 where none stands.
    pub fn number(&self, at: usize) -> i64
        ensures { result ≡ number_of_property (slice_get self.now at) }
    {
        match self.properties.get(at) {
            Some(Prop::Num(n)) => *n,
            _ => 0,
        }
    }

    /// The first number of the Interval property at this place; 0 where none stands.
    pub fn low(&self, at: usize) -> i64
        ensures { result ≡ low_of_property (slice_get self.now at) }
    {
        match self.properties.get(at) {
            Some(Prop::Pair(low, _)) => *low,
            _ => 0,
        }
    }

    /// The second number of the Interval property at this place; 0 where none stands.
    pub fn high(&self, at: usize) -> i64
        ensures { result ≡ high_of_property (slice_get self.now at) }
    {
        match self.properties.get(at) {
            Some(Prop::Pair(_, high)) => *high,
            _ => 0,
        }
    }

    /// The set of the SomeBits or AllBits property at this place; 0 where none stands.
    pub fn set(&self, at: usize) -> u128
        ensures { result ≡ set_of_property (slice_get self.now at) }
    {
        match self.properties.get(at) {
            Some(Prop::Bits(set)) => *set,
            _ => 0,
        }
    }

    /// The properties from this place on, as many as asked.
    pub fn part(&self, first: usize, count: usize) -> StateView<'a>
        requires { count ≤ length (drop first self.now) }
        ensures { result ≡ part_at first count self.now }
    {
        StateView {
            properties: part_of(self.properties, first, count),
        }
    }

    /// The order of states.
    pub fn compare(&self, other: &StateView<'_>) -> Ordering
        ensures { result ≡ state_order self.now other.now }
    {
        self.properties.cmp(other.properties)
    }
}

/// The properties from a place on, as many as asked.
fn part_of(properties: &[Prop], first: usize, count: usize) -> &[Prop]
    requires { count ≤ length (drop first properties.now) }
    ensures { result.now ≡ part_at first count properties.now }
{
    if count == 0 {
        return &[];
    }
    &properties[first..first + count]
}
