//! Rows of tests for revisions of diagrams, whose crate keeps none of its own: groups that are composed of
//! the library's constraints and of specifications that texts write, and the lines of the tables that
//! their revisions make. Each subject has a file, with its rows in tables. The crate has nothing to call.
//!
//! A group or a diagram is let go by `drop`: what that does is then proved once for its type, and not in
//! each function that ends with one.
#![tactic(auto)]

#[cfg(test)]
mod composed;
#[cfg(test)]
mod kinds;
#[cfg(test)]
mod later;
#[cfg(test)]
mod levels;
#[cfg(test)]
mod library;
#[cfg(test)]
mod lines;
#[cfg(test)]
mod parts;
#[cfg(test)]
mod running;
#[cfg(test)]
mod shapes;
#[cfg(test)]
mod worked;
