//! The trees of expressions and conditions.
use sqlite_items::Boxed;

/// In which of a specification's two lists a property stands.
#[derive(Clone, Copy, Debug, PartialEq, Eq)]
pub enum Side {
    Down,
    Up,
}

/// An expression whose value is a number. A `u16` is the place, from 0, of a parameter, or of a
/// property in its list.
#[derive(Debug, Drop)]
pub enum NumExpr {
    Lit(i64),
    Value,
    Index,
    Length,
    Best,
    Param(u16),
    Item(u16),
    Number(Side, u16),
    Low(Side, u16),
    High(Side, u16),
    Card(Boxed<SetExpr>),
    Add(Boxed<NumExpr>, Boxed<NumExpr>),
    Least(Boxed<NumExpr>, Boxed<NumExpr>),
    Most(Boxed<NumExpr>, Boxed<NumExpr>),
    Minus(Boxed<NumExpr>, Boxed<NumExpr>),
    Negative(Boxed<NumExpr>),
    Times(Boxed<NumExpr>, Boxed<NumExpr>),
}

/// An expression whose value is a set of values.
#[derive(Debug, Drop)]
pub enum SetExpr {
    Lit(u128),
    One,
    Param(u16),
    Bits(Side, u16),
    Union(Boxed<SetExpr>, Boxed<SetExpr>),
    Common(Boxed<SetExpr>, Boxed<SetExpr>),
    Without(Boxed<SetExpr>, Boxed<SetExpr>),
}

/// A condition.
#[derive(Debug, Drop)]
pub enum Cond {
    Always,
    Never,
    AtMost(Boxed<NumExpr>, Boxed<NumExpr>),
    Below(Boxed<NumExpr>, Boxed<NumExpr>),
    AtLeast(Boxed<NumExpr>, Boxed<NumExpr>),
    Above(Boxed<NumExpr>, Boxed<NumExpr>),
    Equal(Boxed<NumExpr>, Boxed<NumExpr>),
    Has(Boxed<SetExpr>),
    Lacks(Boxed<SetExpr>),
    Subset(Boxed<SetExpr>, Boxed<SetExpr>),
    Both(Boxed<Cond>, Boxed<Cond>),
    Either(Boxed<Cond>, Boxed<Cond>),
    Not(Boxed<Cond>),
}
