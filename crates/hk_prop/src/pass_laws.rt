//! The laws of passes, which the contracts of these functions state. The functions do nothing.
ghost use Rattle.std.specs.Prelude.{◌≡◌, ◌↔◌, ℕ, ℤ, ◌<◌, ◌≤◌, true, false, Option, List, [], ◌∷◌, ◌++◌, length, slice_index};
ghost use Rattle.hk_base.specs.Sets.{Has};
ghost use Rattle.hk_base.specs.Lists.{IsFrontOf};
ghost use Rattle.hk_domains.specs.Domains.{AreSets};
ghost use Rattle.hk_group.specs.Groups.{PlainGroup};
ghost use Rattle.hk_group.specs.Problems.{PlainProblem};
ghost use Rattle.hk_table.specs.Keeps.{Supports};
ghost use Rattle.hk_table.specs.OpenBranches.{Reading, after_leaf, open_branches, read_items};
ghost use Rattle.hk_table.specs.Tables.{PlainShape};
ghost use Rattle.hk_table.specs.declared.items.TraceItem.{TraceItem};
ghost use Rattle.hk_table.specs.declared.items.TraceItem.TheVariants as item;
ghost use Rattle.hk_prop.specs.Contents.{PlainTable, Content, values_left};
ghost use Rattle.hk_prop.specs.Passes.{pruned, ends_with, node_passes, passes_from};
ghost use Rattle.hk_prop.specs.Supports.{supports, all_allow};
ghost use Rattle.hk_prop.specs.Told.{IsToldFront, Now, pass_items, passes_items, passed, due_passes, told_more};

/// The test of what a table supports says what it supports.
pub fn tests_say_what_is_supported()
    ensures { (shape : PlainShape) (table : PlainTable) (level value : ℕ) → (supports shape table level value ≡ true) ↔ Supports shape table level value }
{}

/// The domains that a pass leaves have exactly the values from 0 to 127 that were there and that all
/// tables allow; and sets that have just these values are the domains that it leaves.
pub fn a_pass_leaves_what_all_tables_allow()
    ensures has { (sets : List ℕ) (groups : List PlainGroup) (tables : List PlainTable) (domains : List ℕ) (variable value : ℕ) → variable < length domains
        → Has (slice_index (pruned sets groups tables domains) variable) value ↔ ((value < 128) × Has (slice_index domains variable) value × (all_allow sets groups tables variable value ≡ true)) }
    ensures only { (sets : List ℕ) (groups : List PlainGroup) (tables : List PlainTable) (domains new : List ℕ) → length new ≡ length domains → AreSets new
        → ((variable value : ℕ) → variable < length domains → value < 128 → Has (slice_index new variable) value ↔ (Has (slice_index domains variable) value × (all_allow sets groups tables variable value ≡ true)))
        → new ≡ pruned sets groups tables domains }
{}

/// Each pass but the last removes a value: as many passes as there are values left are enough, and
/// more change nothing.
pub fn as_many_passes_as_values_are_enough()
    ensures { (p : PlainProblem) (width : ℕ) (best : ℤ) (some more : ℕ) (at : Content) → values_left at.domains ≤ some → values_left at.domains ≤ more → passes_from p width best some at ≡ passes_from p width best more at }
{}

/// Where the passes end with the next one, it is all that is due; else what is due is what is due
/// after it.
pub fn passes_go_on_or_end()
    ensures last { (p : PlainProblem) (width : ℕ) (best : ℤ) (now : Now) → ends_with now.at (passed p width best now).at ≡ true → due_passes p width best now ≡ passed p width best now }
    ensures more { (p : PlainProblem) (width : ℕ) (best : ℤ) (now : Now) → ends_with now.at (passed p width best now).at ≡ false → due_passes p width best now ≡ due_passes p width best (passed p width best now) }
{}

/// The items of a pass are read as its tables, and open no branch; those of the passes of a node are
/// read as the tables that they leave.
pub fn passes_are_read_as_their_tables()
    ensures one { (so_far : Reading) (tables : List PlainTable) → read_items so_far (pass_items tables) ≡ record { tables = tables; open_ones = so_far.open_ones } }
    ensures node { (p : PlainProblem) (width : ℕ) (best : ℤ) (so_far : Reading) (at : Content) → read_items so_far (passes_items (node_passes p width best at).each) ≡ record { tables = (node_passes p width best at).last.tables; open_ones = so_far.open_ones } }
{}

/// A node that branches opens a branch, before which the list holds the tables that its passes left. A
/// node that fails or has a solution, and one that isn't entered, ends the branches whose second child it
/// ends.
pub fn nodes_open_and_close_branches()
    ensures branch { (p : PlainProblem) (width : ℕ) (best : ℤ) (at : Content) (told : List TraceItem) (variable value : ℕ)
        → open_branches (told ++ (passes_items (node_passes p width best at).each ++ item.Branch variable value ∷ [])) ≡ record { tables = (node_passes p width best at).last.tables; second = false } ∷ open_branches told }
    ensures fail { (p : PlainProblem) (width : ℕ) (best : ℤ) (at : Content) (told : List TraceItem) → open_branches (told ++ (passes_items (node_passes p width best at).each ++ item.Fail ∷ [])) ≡ after_leaf (open_branches told) }
    ensures solution { (p : PlainProblem) (width : ℕ) (best : ℤ) (at : Content) (told : List TraceItem) (values : List ℕ) → open_branches (told ++ (passes_items (node_passes p width best at).each ++ item.Sol values ∷ [])) ≡ after_leaf (open_branches told) }
    ensures unentered { (told : List TraceItem) → open_branches (told ++ item.OpenLeaf ∷ []) ≡ after_leaf (open_branches told) }
{}

/// What was told is a front of what is told with more items; with a front of items it is one of what is
/// told with all of them; and a front of a front is a front.
pub fn what_was_told_begins_what_is_told()
    ensures more { (told : Option (List TraceItem)) (items : List TraceItem) → IsToldFront told (told_more told items) }
    ensures front { (told : Option (List TraceItem)) (front items : List TraceItem) → IsFrontOf front items → IsToldFront (told_more told front) (told_more told items) }
    ensures further { (first second third : Option (List TraceItem)) → IsToldFront first second → IsToldFront second third → IsToldFront first third }
{}
