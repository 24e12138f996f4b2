//! The properties that a specification's state is made of, of five kinds, and states as lists of them.
//! Each kind is a lattice: two properties have a join, which covers both and is the least that does.
//! A state joins and covers property by property, and states have an order. Lists of states of one length
//! take one piece of memory.
#![tactic(auto)]

mod flat;
mod keys;
mod kinds;
mod lattices;
mod laws;
mod limits;
mod numbers;
mod places;
mod properties;
mod rows;
mod sets;
mod shapes;
mod states;
mod views;

pub use kinds::Kind;
pub use lattices::Lattice;
pub use laws::{
    covering_by_joins, distinct_states_are_unique, joins_have_the_shape, order_of_states,
    states_are_a_lattice, test_of_covering, tops_cover_all, tops_have_the_shape,
};
pub use limits::{LIM, clamp};
pub use numbers::{MaxNum, MinNum, Span};
pub use places::distinct;
pub use properties::Prop;
pub use rows::States;
pub use sets::{AllSet, SomeSet};
pub use shapes::Shape1;
pub use states::State;
pub use views::StateView;
