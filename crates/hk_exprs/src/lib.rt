//! The reader of expressions: token by token, with a frame for each parenthesis that is open.
#![tactic(auto)]

pub use expressions::{read_cond, read_num, read_pair, read_set};

mod expressions;
mod frames;
mod joining;
mod making;
mod operands;
mod placing;
mod resolving;
mod running;
mod stepping;
