//! What the tokens of a line of a model say: a statement, or a post of a specification. Whether it
//! may stand there isn't asked here.
#![tactic(auto)]

pub use counts::{Counting, Row};
pub use phrases::{Term, Values};
pub use posts::{PostArg, PostShape, post_of};
pub use sets::set_of_values;
pub use shapes::{Shape, shape_of};

mod counts;
mod phrases;
mod posts;
mod sets;
mod shapes;
