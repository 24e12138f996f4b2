//! The values of expressions.
ghost use Rattle.std.specs.Prelude.{◌≡◌, ◌+ℤ◌, ◌-ℤ◌, ◌*ℤ◌, ◌==◌, ◌^◌, ◌<◌, pos, bit_and, count_ones};
ghost use Rattle.std.specs.Int.{bit_at, int_max, int_min};
ghost use Rattle.hk_kinds.specs.Limits.{clamped};
ghost use Rattle.hk_spec.specs.Values.{num_value, set_value, cond_holds, set_without};

use crate::expressions::{Cond, NumExpr, SetExpr};
use crate::places::{item_argument, number_argument, set_argument};
use crate::settings::Setting;
use hk_kinds::{LIM, clamp};

/// The value of a set expression.
pub fn set_value(e: &SetExpr, at: &Setting<'_>) -> u128
    ensures { result ≡ set_value at.now e.now }
{
    match e {
        SetExpr::Lit(set) => *set,
        SetExpr::One => one_value(at.value),
        SetExpr::Param(place) => set_argument(at.args, *place),
        SetExpr::Bits(side, place) => at.state(*side).set(usize::from(*place)),
        SetExpr::Union(a, b) => set_value(a.get(), at) | set_value(b.get(), at),
        SetExpr::Common(a, b) => set_value(a.get(), at) & set_value(b.get(), at),
        SetExpr::Without(a, b) => without(set_value(a.get(), at), set_value(b.get(), at)),
    }
}

/// The value of a number expression.
pub fn num_value(e: &NumExpr, at: &Setting<'_>) -> i64
    ensures { result ≡ num_value at.now e.now }
{
    match e {
        NumExpr::Lit(n) => *n,
        NumExpr::Value => i64::from(at.value),
        NumExpr::Index => i64::from(at.position),
        NumExpr::Length => i64::from(at.positions),
        NumExpr::Best => at.best,
        NumExpr::Param(place) => number_argument(at.args, *place),
        NumExpr::Item(place) => item_argument(at.args, *place, at.position),
        NumExpr::Number(side, place) => at.state(*side).number(usize::from(*place)),
        NumExpr::Low(side, place) => at.state(*side).low(usize::from(*place)),
        NumExpr::High(side, place) => at.state(*side).high(usize::from(*place)),
        NumExpr::Card(set) => card_value(set.get(), at),
        NumExpr::Add(a, b) => sum(num_value(a.get(), at), num_value(b.get(), at)),
        NumExpr::Least(a, b) => less(num_value(a.get(), at), num_value(b.get(), at)),
        NumExpr::Most(a, b) => greater(num_value(a.get(), at), num_value(b.get(), at)),
        NumExpr::Minus(a, b) => difference(num_value(a.get(), at), num_value(b.get(), at)),
        NumExpr::Negative(a) => difference(0, num_value(a.get(), at)),
        NumExpr::Times(a, b) => product(num_value(a.get(), at), num_value(b.get(), at)),
    }
}

/// How many values the set of an expression has. Whether one value is in a set is a bit alone, as when a
/// step counts a value; that needs no set made and counted.
fn card_value(e: &SetExpr, at: &Setting<'_>) -> i64
    ensures { result ≡ pos (count_ones (set_value at.now e.now)) }
{
    match e {
        SetExpr::Common(a, b) => common_card(a.get(), b.get(), at),
        _ => card(set_value(e, at)),
    }
}

/// How many values the sets of two expressions share.
fn common_card(a: &SetExpr, b: &SetExpr, at: &Setting<'_>) -> i64
    ensures { result ≡ pos (count_ones (bit_and (set_value at.now a.now) (set_value at.now b.now))) }
{
    match a {
        SetExpr::One => i64::from(one_card(set_value(b, at), at.value)),
        _ => card(set_value(a, at) & set_value(b, at)),
    }
}

/// Whether a condition holds.
pub fn holds(p: &Cond, at: &Setting<'_>) -> bool
    ensures { result ≡ cond_holds at.now p.now }
{
    match p {
        Cond::Always => true,
        Cond::Never => false,
        Cond::AtMost(a, b) => num_value(a.get(), at) <= num_value(b.get(), at),
        Cond::Below(a, b) => num_value(a.get(), at) < num_value(b.get(), at),
        Cond::AtLeast(a, b) => num_value(a.get(), at) >= num_value(b.get(), at),
        Cond::Above(a, b) => num_value(a.get(), at) > num_value(b.get(), at),
        Cond::Equal(a, b) => num_value(a.get(), at) == num_value(b.get(), at),
        Cond::Has(set) => has(set_value(set.get(), at), at.value),
        Cond::Lacks(set) => !has(set_value(set.get(), at), at.value),
        Cond::Subset(a, b) => is_within(set_value(a.get(), at), set_value(b.get(), at)),
        Cond::Both(p, q) => holds(p.get(), at) && holds(q.get(), at),
        Cond::Either(p, q) => holds(p.get(), at) || holds(q.get(), at),
        Cond::Not(p) => !holds(p.get(), at),
    }
}

fn sum(a: i64, b: i64) -> i64
    ensures { result ≡ clamped (a +ℤ b) }
{
    a.saturating_add(b).min(LIM).max(-LIM)
}

fn less(a: i64, b: i64) -> i64
    ensures { result ≡ clamped (int_min a b) }
{
    clamp(i128::from(a.min(b)))
}

fn greater(a: i64, b: i64) -> i64
    ensures { result ≡ clamped (int_max a b) }
{
    clamp(i128::from(a.max(b)))
}

fn difference(a: i64, b: i64) -> i64
    ensures { result ≡ clamped (a -ℤ b) }
{
    clamp(i128::from(a) - i128::from(b))
}

fn product(a: i64, b: i64) -> i64
    ensures { result ≡ clamped (a *ℤ b) }
{
    clamp(i128::from(a) * i128::from(b))
}

fn one_value(value: u8) -> u128
    requires { value < 128 }
    ensures { result ≡ 2 ^ value }
{
    1u128 << value
}

/// The values of the first set that the second does not have.
fn without(a: u128, b: u128) -> u128
    ensures { result ≡ set_without a b }
{
    a ^ (a & b)
}

fn has(set: u128, value: u8) -> bool
    requires { value < 128 }
    ensures { result ≡ (bit_at set value == 1) }
{
    (set >> value) & 1 == 1
}

/// Whether the first set is a subset of the second.
fn is_within(a: u128, b: u128) -> bool
    ensures { result ≡ (bit_and a b == a) }
{
    a & b == a
}

/// How many values a set has.
fn card(set: u128) -> i64
    ensures { result ≡ pos (count_ones set) }
{
    i64::from(set.count_ones())
}

/// How many values a set and the set of one value share.
fn one_card(set: u128, value: u8) -> u32
    requires { value < 128 }
    ensures { result ≡ count_ones (bit_and (2 ^ value) set) }
{
    bit_of(set, value)
}

/// The bit of a value: 1 where the set has it, else 0.
fn bit_of(set: u128, value: u8) -> u32
    requires { value < 128 }
    ensures { result ≡ bit_at set value }
{
    ((set >> value) & 1) as u32
}
