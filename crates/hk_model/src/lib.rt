//! The reader of a planner's model: the text of a problem.
#![tactic(auto)]

pub use hk_draft::RefusalKind;
pub use laws::{one_outcome, valid};
pub use reading::read_model;
pub use refusal::{ModelError, Refusal};

mod binding;
mod declared;
mod faults;
mod laws;
pub mod limits;
mod reading;
mod refusal;
