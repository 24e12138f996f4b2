//! The arguments of a specification.
use hk_base::List;

/// An argument of a specification: a number, a set of values, or one number a position.
#[derive(Debug, Drop)]
pub enum Arg {
    Num(i64),
    Set(u128),
    Nums(List<i64>),
}
