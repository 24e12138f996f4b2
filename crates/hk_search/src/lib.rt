//! The search for the answer of a problem, and the answer as a text. The search walks the
//! assignments in their order, one variable after the other by its values, and takes each that makes
//! every constraint hold and costs less than what it took before.
#![tactic(auto)]

pub use found::{Found, Outcome};
pub use texts::answer_text;
pub use tree_laws::{
    a_budget_leaves_what_is_within_it, a_search_tells_the_tree_that_its_budget_leaves,
    a_tight_tree_has_few_nodes, an_outcome_gives_the_reply, the_last_solution_is_the_answer,
    there_is_one_tight_tree, what_is_due_goes_on_or_ends, what_was_told_begins_what_is_due,
};
pub use walk::search_plain;

mod best;
mod found;
mod texts;
mod tree_laws;
mod walk;
