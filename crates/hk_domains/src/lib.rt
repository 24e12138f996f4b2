//! The domains of variables, with levels.
//!
//! A domain is a set of values from 0 to 127. [`Domains`] holds one for each variable in the trailed
//! cells of a store, so a push copies no set, and a pop gives all sets back at the cost of what was
//! changed since.
#![tactic(auto)]

mod counted;
mod domains;
mod values;

pub use domains::Domains;
