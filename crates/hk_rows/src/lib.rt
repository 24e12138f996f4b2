//! Rows of tests for tables of decision diagrams, whose crate keeps none of its own: tables that are
//! written out by hand, and what is answered for them. Each subject has a file, with its rows in
//! tables. The crate has nothing to call.
#![tactic(auto)]

#[cfg(test)]
mod changed;
#[cfg(test)]
mod changes;
#[cfg(test)]
mod copies;
#[cfg(test)]
mod filling;
#[cfg(test)]
mod leading;
#[cfg(test)]
mod openings;
#[cfg(test)]
mod readings;
#[cfg(test)]
mod sets;
#[cfg(test)]
mod shapes;
#[cfg(test)]
mod supportable;
#[cfg(test)]
mod supports;
#[cfg(test)]
mod traces;
#[cfg(test)]
mod written;
