//! The properties of a state: their join and covering, by kind.
ghost use Rattle.std.specs.Prelude.{◌≡◌, pos};
ghost use Rattle.hk_kinds.specs.Joins.{property_join};
ghost use Rattle.hk_kinds.specs.Covers.{property_covers};

use crate::kinds::Kind;
use crate::lattices::{Lattice, covers, joined};
use crate::numbers::{MaxNum, MinNum, Span};
use crate::sets::{AllSet, SomeSet};

/// One property of a state: a number, an interval from its first to its second number, or a set of
/// values, in which bit `v` stands for the value `v`.
#[derive(Clone, Copy, Debug, PartialEq, Eq, PartialOrd, Ord)]
pub enum Prop {
    Num(i64),
    Pair(i64, i64),
    Bits(u128),
}

impl Default for Prop {
    fn default() -> Prop
        ensures { result ≡ Prop.Num (pos 0) }
    {
        Prop::Num(0)
    }
}

/// The join of two properties of a kind.
pub fn join_properties(kind: Kind, mine: Prop, theirs: Prop) -> Prop
    ensures { result ≡ property_join kind mine theirs }
{
    match (kind, mine, theirs) {
        (Kind::Min, Prop::Num(a), Prop::Num(b)) => Prop::Num(joined(MinNum(a), MinNum(b)).0),
        (Kind::Max, Prop::Num(a), Prop::Num(b)) => Prop::Num(joined(MaxNum(a), MaxNum(b)).0),
        (Kind::Interval, Prop::Pair(a, b), Prop::Pair(c, d)) => {
            let Span(low, high) = joined(Span(a, b), Span(c, d));
            Prop::Pair(low, high)
        }
        (Kind::SomeBits, Prop::Bits(a), Prop::Bits(b)) => {
            Prop::Bits(joined(SomeSet(a), SomeSet(b)).0)
        }
        (Kind::AllBits, Prop::Bits(a), Prop::Bits(b)) => Prop::Bits(joined(AllSet(a), AllSet(b)).0),
        _ => mine,
    }
}

/// Whether the first property of a kind covers the second.
pub fn covers_property(kind: Kind, mine: Prop, theirs: Prop) -> bool
    ensures { result ≡ property_covers kind mine theirs }
{
    match (kind, mine, theirs) {
        (Kind::Min, Prop::Num(a), Prop::Num(b)) => covers(MinNum(a), MinNum(b)),
        (Kind::Max, Prop::Num(a), Prop::Num(b)) => covers(MaxNum(a), MaxNum(b)),
        (Kind::Interval, Prop::Pair(a, b), Prop::Pair(c, d)) => covers(Span(a, b), Span(c, d)),
        (Kind::SomeBits, Prop::Bits(a), Prop::Bits(b)) => covers(SomeSet(a), SomeSet(b)),
        (Kind::AllBits, Prop::Bits(a), Prop::Bits(b)) => covers(AllSet(a), AllSet(b)),
        _ => false,
    }
}
