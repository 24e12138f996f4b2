//! The laws of the tree of a search, which the contracts of these functions state. The functions do
//! nothing.
ghost use Rattle.std.specs.Prelude.{◌≡◌, ℕ, ◌+◌, ◌*◌, ◌<◌, ◌≤◌, min, true, false, ◌∷◌, ◌++◌, [], List, Option, None};
ghost use Rattle.hk_group.specs.Problems.{PlainProblem, IsValid};
ghost use Rattle.hk_prop.specs.Contents.{Content, opening_content};
ghost use Rattle.hk_prop.specs.Told.{IsToldFront};
ghost use Rattle.hk_table.specs.declared.items.TraceItem.{TraceItem};
ghost use Rattle.hk_search.specs.declared.found.Found.{Found};
ghost use Rattle.hk_search.specs.Findings.{IsFinding};
ghost use Rattle.hk_search.specs.Nodes.{is_over};
ghost use Rattle.hk_search.specs.Replies.{IsReply, outcome_text, status_of};
ghost use Rattle.hk_search.specs.Rules.{Rules, rules_of};
ghost use Rattle.hk_search.specs.Searches.{Heard, begun, due, finish, shut, turn};
ghost use Rattle.hk_search.specs.Trees.{Node, IsTight, best_after, choices, node_count, cut, with_tree};

/// From each content on, and under each best solution, there is a tight tree, and only one.
pub fn there_is_one_tight_tree()
    ensures some { (p : PlainProblem) (width : ℕ) (best : Option Found) (at : Content) → (tree : Node) × IsTight (rules_of p width) best at tree }
    ensures one { (p : PlainProblem) (width : ℕ) (best : Option Found) (at : Content) (tree other : Node) → IsTight (rules_of p width) best at tree → IsTight (rules_of p width) best at other → tree ≡ other }
{}

/// What is due of a search, node by node: where none waits it is what was told; where the search is over,
/// or the budget is spent, none of those that wait is entered; and else the next one is, and what is due
/// is what is due after it, with its children before those that waited.
pub fn what_is_due_goes_on_or_ends()
    ensures none { (r : Rules) (budget : ℕ) (heard : Heard) → due r budget heard [] ≡ heard }
    ensures over { (r : Rules) (budget : ℕ) (heard : Heard) (at : Content) (later : List Content) → is_over r heard.outcome.best ≡ true → due r budget heard (at ∷ later) ≡ shut heard (at ∷ later) }
    ensures spent { (r : Rules) (budget : ℕ) (heard : Heard) (waiting : List Content) → budget ≤ heard.outcome.nodes → due r budget heard waiting ≡ shut heard waiting }
    ensures more { (r : Rules) (budget : ℕ) (heard : Heard) (at : Content) (later : List Content) → is_over r heard.outcome.best ≡ false → heard.outcome.nodes < budget
        → due r budget heard (at ∷ later) ≡ due r budget (turn r heard at).heard ((turn r heard at).children ++ later) }
{}

/// What a search has told is a front of what is due.
pub fn what_was_told_begins_what_is_due()
    ensures { (r : Rules) (budget : ℕ) (heard : Heard) (waiting : List Content) → IsToldFront heard.told (due r budget heard waiting).told }
{}

/// What is due of a search that may enter so many nodes is what the tight tree tells, cut at this
/// budget.
pub fn a_search_tells_the_tree_that_its_budget_leaves()
    ensures { (p : PlainProblem) (width budget : ℕ) (heard : Heard) (at : Content) (tree : Node) → IsTight (rules_of p width) heard.outcome.best at tree → finish (rules_of p width) budget heard (at ∷ []) ≡ with_tree (rules_of p width) heard (cut budget tree) }
{}

/// A tree within the budget is left whole, and a cut tree enters as many nodes as the budget, or all.
pub fn a_budget_leaves_what_is_within_it()
    ensures whole { (budget : ℕ) (tree : Node) → node_count tree ≤ budget → cut budget tree ≡ tree }
    ensures count { (budget : ℕ) (tree : Node) → node_count (cut budget tree) ≡ min budget (node_count tree) }
{}

/// The last solution of the tight tree from the opening tables on is the answer of the problem, with
/// its cost; and there is no solution where the tree has none.
pub fn the_last_solution_is_the_answer()
    ensures { (p : PlainProblem) (width : ℕ) (tree : Node) → IsValid p → 0 < width → IsTight (rules_of p width) None (opening_content p) tree → IsFinding p (best_after (rules_of p width) None tree) }
{}

/// The outcome of a search from the opening tables on, told in whatever way, gives the status and the
/// text that answer the problem within the budget.
pub fn an_outcome_gives_the_reply()
    ensures { (p : PlainProblem) (width budget : ℕ) (told : Option (List TraceItem)) → IsValid p → 0 < width
        → let outcome = (finish (rules_of p width) budget (begun told) (opening_content p ∷ [])).outcome in IsReply p width budget (status_of p outcome) (outcome_text p outcome) }
{}

/// The tight tree of a problem has at most twice as many nodes, less one, as there are ways to give
/// each variable one of its values.
pub fn a_tight_tree_has_few_nodes()
    ensures { (p : PlainProblem) (width : ℕ) (tree : Node) → IsValid p → IsTight (rules_of p width) None (opening_content p) tree → node_count tree + 1 ≤ 2 * choices p.domains }
{}
