//! The library of constraints, as specifications with arguments. Each has exactly the text that
//! `hk_spec` defines for it and is graded, and a law says what its exact run accepts: the values that
//! make the constraint hold by its plain meaning, which no state is a part of.
#![tactic(auto)]

mod counting;
mod distinct;
mod keeping;
mod laws;
mod rules;
mod sequences;
mod states;
mod sums;

pub use counting::{among, gcc};
pub use distinct::alldifferent;
pub use keeping::{constraints_are_without_best, rows_keep_the_rules};
pub use laws::{
    alldifferent_accepts, among_accepts, gcc_accepts, objective_accepts, sequence_accepts,
    sum_accepts,
};
pub use rules::{
    library_arguments_fit, library_is_graded, library_is_revisable, library_keeps_the_rules,
};
pub use sequences::sequence;
pub use states::{
    alldifferent_states, among_states, objective_states, sequence_states, sum_states,
    sums_are_small,
};
pub use sums::{objective, sum};
