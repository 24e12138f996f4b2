//! The passes of a node of a search: all diagrams are revised under the domains, then each value that
//! some diagram doesn't support is removed, and so on until a pass removes nothing or leaves a
//! variable without value.
//!
//! What passes are is said in `specs/`: `pass` is one pass, `node_passes` are those of a node, and
//! `due_passes` is what a trace is told of them. The laws below hold of these definitions.
#![tactic(auto)]

mod counting;
mod faults;
mod keeping_laws;
mod narrowing;
mod pass_laws;
mod passing;
mod revising;
mod rounds;
mod settled;
mod telling;
mod work;

pub use faults::PropFault;
pub use keeping_laws::{
    every_content_stands, fewer_candidates_are_kept, one_value_each_is_a_solution,
    opening_tables_keep_every_solution, passes_lose_no_solution,
};
pub use pass_laws::{
    a_pass_leaves_what_all_tables_allow, as_many_passes_as_values_are_enough,
    nodes_open_and_close_branches, passes_are_read_as_their_tables, passes_go_on_or_end,
    tests_say_what_is_supported, what_was_told_begins_what_is_told,
};
pub use settled::Settled;
pub use work::Work;
