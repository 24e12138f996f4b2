//! Whether a specification may be trusted where states are merged: each expression moves in a sense,
//! and the test and the steps may move in certain senses only. Such a specification is graded, and a
//! graded one is monotone.
#![tactic(auto)]

mod errors;
mod grading;
mod judging;
mod laws;
mod properties;
mod senses;

pub use errors::{GradeError, GradeFault};
pub use grading::{Graded, grade};
pub use hk_spec::{Place, Sense};
pub use judging::{wrong_step, wrong_test};
pub use laws::{graded_is_monotone, graded_is_revisable};
pub use properties::Properties;
