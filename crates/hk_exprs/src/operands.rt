//! The operands that frames hold: words, digits, and what is made of expressions.

use hk_spec::{Cond, NumExpr, SetExpr};
use hk_terms::Flaw;

/// An expression and its depth.
#[derive(Drop)]
pub struct Tree<T> {
    pub root: T,
    pub depth: u32,
}

/// What is made of an expression of a number, of a set, of a condition.
pub type MadeNum = Result<Tree<NumExpr>, Flaw>;

pub type MadeSet = Result<Tree<SetExpr>, Flaw>;

pub type MadeCond = Result<Tree<Cond>, Flaw>;

/// An operand that was taken: a word, of which it isn't known yet what it stands for; the digits
/// after `-`; or what is made of an expression.
#[derive(Drop)]
pub enum Operand<'a> {
    Word(&'a [u8]),
    Signed(&'a [u8]),
    Num(MadeNum),
    Set(MadeSet),
    Cond(MadeCond),
}
