//! Rows of tests for the small crates at the bottom, which have none of their own: proving a crate
//! again with its tests would cost more than proving it. Each subject has a file, with its rows in
//! tables. The crate has nothing to call.
#![tactic(auto)]

#[cfg(test)]
mod cells;
#[cfg(test)]
mod domains;
#[cfg(test)]
mod hosts;
#[cfg(test)]
mod places;
#[cfg(test)]
mod states;
#[cfg(test)]
mod texts;
#[cfg(test)]
mod trail;
