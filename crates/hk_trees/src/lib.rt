//! The parts that specifications are put together of: nodes of trees, parameters, properties, and the
//! steps and the test of a total. Each is exactly what `hk_spec` defines, and without memory what was
//! made so far is dropped.
#![tactic(auto)]

mod intervals;
mod lists;
mod specifications;
mod trees;

pub use intervals::{Added, only_step_by, step_by, total_test, totals};
pub use lists::{list_of_one, list_of_three, list_of_two};
pub use specifications::{Names, Rules, interval, param, property, spec_of};
pub use trees::{
    at_least, at_most, below, both, card, common, either, lacks, minus, plus, plus_both, times,
    union,
};
