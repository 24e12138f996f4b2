//! Revisions: what a loose and what the tight revision of a table are, the facts that make them safe, and
//! the revision of a diagram in place.
#![tactic(auto)]

mod ascents;
mod descents;
mod exact_laws;
mod fallen;
mod frames;
mod loose_laws;
mod revising;
mod shaping;
mod tight_laws;
mod writing;

pub use exact_laws::{narrow_tight_revision_is_exact, one_value_left_is_accepted};
pub use loose_laws::loose_revision_keeps_every_solution;
pub use revising::{Buffers, revise, revise_in};
pub use shaping::shape_of;
pub use tight_laws::{tight_revision_fits, tight_revision_is_loose};
