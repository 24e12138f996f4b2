//! The printed text of a specification: a block of lines, one for each part, in which each operation
//! stands in parentheses of its own.
#![tactic(auto)]

pub use blocks::print_spec;

mod blocks;
mod conditions;
mod names;
mod numbers;
mod params;
mod properties;
mod sets;
mod steps;
mod words;
