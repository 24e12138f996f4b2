//! What a place of an expression stands for among the arguments.
ghost use Rattle.std.specs.Prelude.{◌≡◌, pos, slice_get, unwrap_or};
ghost use Rattle.hk_spec.specs.Settings.{number_of_argument, item_of_argument, set_of_argument};

use crate::arguments::Arg;

/// A num argument.
pub fn number_argument(args: &[Arg], place: u16) -> i64
    ensures { result ≡ number_of_argument (slice_get args.now place) }
{
    match args.get(usize::from(place)) {
        Some(Arg::Num(n)) => *n,
        _ => 0,
    }
}

/// The number of a list argument at a position.
pub fn item_argument(args: &[Arg], place: u16, position: u16) -> i64
    ensures { result ≡ item_of_argument (slice_get args.now place) position }
{
    match args.get(usize::from(place)) {
        Some(Arg::Nums(numbers)) => item_at(numbers.as_slice(), position),
        _ => 0,
    }
}

/// The number at a position, or 0 past the end.
fn item_at(numbers: &[i64], position: u16) -> i64
    ensures { result ≡ unwrap_or (slice_get numbers.now position) (pos 0) }
{
    numbers.get(usize::from(position)).copied().unwrap_or(0)
}

/// A set argument.
pub fn set_argument(args: &[Arg], place: u16) -> u128
    ensures { result ≡ set_of_argument (slice_get args.now place) }
{
    match args.get(usize::from(place)) {
        Some(Arg::Set(set)) => *set,
        _ => 0,
    }
}
