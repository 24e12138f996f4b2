//! The specifications by which constraints are given: expressions, the properties that step over a
//! list of values, and the test of each position. A specification with arguments runs exactly over
//! values, or steps and tests states in place that a diagram keeps.
#![tactic(auto)]

mod arguments;
mod bindings;
mod copies;
mod expressions;
mod laws;
mod parts;
mod places;
mod runs;
mod senses;
mod settings;
mod specification;
mod steps;
mod values;

pub use arguments::Arg;
pub use bindings::{Bound, Bounds};
pub use expressions::{Cond, NumExpr, SetExpr, Side};
pub use laws::{
    acceptance_without_best, condition_without_best, down_steps_keep_the_shape,
    up_steps_keep_the_shape,
};
pub use parts::{Param, ParamKind, PropDecl, StepExpr};
pub use senses::{Place, Sense};
pub use specification::Spec;
