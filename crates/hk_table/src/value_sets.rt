//! Sets of values, one value after another. A set is a number whose bit v, from 0 to 127, stands
//! for the value v.
ghost use Rattle.std.specs.Prelude.{◌≡◌, ◌<◌, ◌∷◌, length};
ghost use Rattle.std.specs.Int.{bit_at};
ghost use Rattle.hk_text.specs.Sets.{members};

/// How many values a set has.
#[inline]
pub fn value_count(set: u128) -> u32
    ensures { result ≡ length (members set) }
{
    set.count_ones()
}

/// The least value of a set that has one, and the set without it.
#[inline]
pub fn split_least(set: u128) -> (u8, u128)
    requires { 0 < length (members set) }
    ensures values { members set ≡ result.0 ∷ members result.1 }
    ensures within { result.0 < 128 }
    ensures gone { bit_at result.1 result.0 ≡ 0 }
{
    // The number below lacks the lowest bit and has the same bits above it.
    (set.trailing_zeros() as u8, set & (set - 1))
}
