//! Rows of tests for the crates of specifications and groups, which keep none of their own:
//! specifications and values, and what is answered for them, worked by hand. Each subject has a
//! file, with its rows in tables. The crate has nothing to call.
//!
//! A specification, a group or a problem is let go by `drop`: what that does is then proved once
//! for its type, and not in each function that ends with one.
#![tactic(auto)]

#[cfg(test)]
mod grades;
#[cfg(test)]
mod groups;
#[cfg(test)]
mod library;
#[cfg(test)]
mod sizes;
#[cfg(test)]
mod specs;
#[cfg(test)]
mod texts;
