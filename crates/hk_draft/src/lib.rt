//! What the statements of a model declare: a problem that grows statement by statement, and the faults
//! of each statement after those before it.
#![tactic(auto)]

pub use declaring::declare;
pub use draft::Draft;
pub use faults::LineFault;
pub use kinds::RefusalKind;
pub use limits::{is_small_set, is_within_limit};
pub use scopes::places_of;

mod counting;
mod declaring;
mod draft;
mod faults;
mod grouping;
mod items;
mod kinds;
mod limits;
mod repeats;
mod scopes;
mod specifying;
