//! What a problem is, when values make its constraints hold and what they cost; and groups of
//! specifications that run side by side, of which each is about some of the variables.
#![tactic(auto)]

mod beginning;
mod composing;
mod copying;
mod counting;
mod faults;
mod group;
mod judging;
mod laws;
pub mod limits;
mod linear;
mod parts;
mod plan;
mod problem;
mod scopes;
mod shapes;
mod stepping;
mod testing;
mod union;
mod widths;
mod writing;

pub use composing::compose;
pub use faults::GroupFault;
pub use group::Group;
pub use judging::judge;
pub use laws::{
    fitting_widths_fit_each_group, group_acceptance_without_best, group_accepts_where_parts_do,
    group_steps_keep_the_shape, group_tests_without_best, monotone_parts_make_a_monotone_group,
    revisable_parts_make_a_revisable_group, valid_groups_have_scopes,
};
pub use linear::Linear;
pub use problem::{Constraint, Constraints, Groups, Names, Problem};
pub use scopes::{Scopes, is_rising};
pub use widths::fits;
