//! Sets of values as numbers: a set without one value, the set of one value, and what a set has.

ghost use Rattle.std.specs.Prelude.{◌≡◌, ℕ, ◌<◌, ◌^◌, ◌↔◌, IsTrue, IfSome};
ghost use Rattle.hk_base.specs.Sets.{Has};
ghost use Rattle.hk_domains.specs.Values.{HasSeveral, IsOnlyValue, IsWithout};

/// A set without a value, which is the set itself where it doesn't have the value.
#[inline]
pub(crate) fn without(set: u128, value: u8) -> u128
    requires { value < 128 }
    ensures without { IsWithout set value result }
    ensures same { ¬ Has set value → result ≡ set }
{
    set & !(1 << value)
}

/// The set of one value.
#[inline]
pub(crate) fn only(value: u8) -> u128
    requires { value < 128 }
    ensures alone { IsOnlyValue result value }
    ensures power { result ≡ 2 ^ value }
{
    1 << value
}

/// Whether a set has two values or more.
#[inline]
pub(crate) fn has_several(set: u128) -> bool
    ensures { IsTrue result ↔ HasSeveral set }
{
    if set == 0 {
        return false;
    }
    without(set, set.trailing_zeros() as u8) != 0
}

/// The one value of a set that has one.
#[inline]
pub(crate) fn only_value(set: u128) -> Option<u8>
    ensures some { IfSome result (IsOnlyValue set) }
    ensures all { (value : ℕ) → IsOnlyValue set value → result ≡ Some value }
{
    if set == 0 {
        return None;
    }
    if has_several(set) {
        return None;
    }
    Some(set.trailing_zeros() as u8)
}
