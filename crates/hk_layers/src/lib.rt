//! One layer of a revision, in flat lists: the way down, which finds the rows of the next layer, and
//! the way up, which finds the entries and up states.
#![tactic(auto)]

mod fronts;
mod joining;
mod laws;
mod leading;
mod leads;
mod marking;
mod marks;
mod olds;
mod rising;
mod spots;
mod uniting;
mod ups;
mod way_down;
mod way_up;

pub use fronts::Front;
pub use laws::steps_share_the_rows;
pub use leads::Lead;
pub use rising::Rising;
pub use spots::Spot;
pub use ups::Ups;
pub use way_down::{DownBuffers, down_layer};
pub use way_up::up_layer;
