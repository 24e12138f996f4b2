//! The kinds of properties.
ghost use Rattle.std.specs.Prelude.{◌≡◌};
ghost use Rattle.hk_kinds.specs.Tops.{top_property};

use crate::limits::LIM;
use crate::properties::Prop;

/// How a property joins: the less or the greater of two numbers, the interval that spans two,
/// the union or the intersection of two sets.
#[derive(Clone, Copy, Debug, PartialEq, Eq)]
pub enum Kind {
    Min,
    Max,
    Interval,
    SomeBits,
    AllBits,
}

/// What a list of kinds holds where none was written yet.
impl Default for Kind {
    fn default() -> Kind
        ensures { result ≡ Kind.Min }
    {
        Kind::Min
    }
}

impl Kind {
    /// The property that covers every property of this kind.
    pub fn top(self) -> Prop
        ensures { result ≡ top_property self }
    {
        match self {
            Kind::Min => Prop::Num(-LIM),
            Kind::Max => Prop::Num(LIM),
            Kind::Interval => Prop::Pair(-LIM, LIM),
            Kind::SomeBits => Prop::Bits(u128::MAX),
            Kind::AllBits => Prop::Bits(0),
        }
    }
}
