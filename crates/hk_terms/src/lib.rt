//! What the tokens of an expression of a specification say, as far as no parenthesis stands around it:
//! operands and marks, literals, numbers in braces, and what names stand for.
#![tactic(auto)]

pub use atoms::{Atom, atom_of};
pub use braces::values_of;
pub use flaws::Flaw;
pub use literals::{GREATEST, literal, value_within};
pub use lookups::{high_named, item_named, low_named, num_named, set_named};
pub use marks::{Mark, mark_of};
pub use names::Names;

mod atoms;
mod braces;
mod flaws;
mod literals;
mod lookups;
mod marks;
mod names;
