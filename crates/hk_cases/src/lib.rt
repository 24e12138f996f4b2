//! Rows of tests for the readers of models and of specifications and for the search, which keep
//! none of their own: texts, and what is answered for them, worked by hand. Each subject has a file,
//! with its rows in tables. The crate has nothing to call.
//!
//! A specification or a problem is let go by `drop`: what that does is then proved once for its
//! type, and not in each function that ends with one.
#![tactic(auto)]

#[cfg(test)]
mod answers;
#[cfg(test)]
mod blocks;
#[cfg(test)]
mod counts;
#[cfg(test)]
mod groups;
#[cfg(test)]
mod models;
#[cfg(test)]
mod texts;
