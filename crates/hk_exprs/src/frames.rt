//! What was taken since a parenthesis was opened, and what stood in it.

use crate::operands::{MadeCond, MadeNum, Operand};
use hk_terms::Mark;

/// What was taken since a parenthesis was opened.
#[derive(Drop)]
pub enum Frame<'a> {
    Empty,
    /// `-`.
    Turned,
    One(Operand<'a>),
    /// `-` and an operand.
    Neg(Operand<'a>),
    After(Operand<'a>, Mark),
    Two(Operand<'a>, Mark, Operand<'a>),
    /// `not` and a condition.
    NotOf(MadeCond),
    /// Nothing yet of two numbers side by side, which stand in no parentheses; then one; then both.
    First,
    Second(Operand<'a>),
    Both(Operand<'a>, Operand<'a>),
}

/// What stood in parentheses: an expression, one operand alone, or two numbers with a comma
/// between.
#[derive(Drop)]
pub enum Content<'a> {
    Value(Operand<'a>),
    Single(Operand<'a>),
    Couple(MadeNum, MadeNum),
}
