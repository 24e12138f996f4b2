//! The laws of groups and of the widths that fit them, which the contracts of these functions state. The functions do nothing.
ghost use Rattle.std.specs.Prelude.{◌≡◌, ◌↔◌, ℕ, ℤ, ◌*◌, ◌<◌, ◌≤◌, List, length, All};
ghost use Rattle.hk_kinds.specs.declared.properties.Prop.{Prop};
ghost use Rattle.hk_kinds.specs.Shapes.{HasShape};
ghost use Rattle.hk_spec.specs.Monotone.{IsMonotone, IsRevisable};
ghost use Rattle.hk_spec.specs.Runs.{Accepts};
ghost use Rattle.hk_spec.specs.Specifications.{IsWithoutBest};
ghost use Rattle.hk_group.specs.Groups.{PlainGroup, Part, IsGroup, group_down, group_down_shape, group_initial_down, group_initial_up, group_passes, group_up, group_up_shape};
ghost use Rattle.hk_group.specs.GroupRuns.{GroupAccepts};
ghost use Rattle.hk_group.specs.GroupRevisions.{IsMonotoneGroup, IsRevisableGroup};
ghost use Rattle.hk_group.specs.Limits.{most_variables, most_group_entries, most_properties};
ghost use Rattle.hk_group.specs.Problems.{PlainProblem, IsScope, IsValid};
ghost use Rattle.hk_group.specs.Solutions.{scope_values};
ghost use Rattle.hk_group.specs.Widths.{FitsWidth, group_values, group_properties};
ghost use Rattle.hk_text.specs.Sets.{members};

/// A group accepts the values that an assignment gives its variables exactly where each of its parts
/// accepts those of its own scope.
pub fn group_accepts_where_parts_do()
    ensures { (g : PlainGroup) (best : ℤ) (assignment : List ℕ) → IsGroup g → GroupAccepts g best (scope_values g.vars assignment) ↔ All (λ (part : Part). Accepts part.bound best (scope_values part.scope assignment)) g.parts }
{}

/// The initial states of a group have its shapes, and its steps keep them.
pub fn group_steps_keep_the_shape()
    ensures initial_down { (g : PlainGroup) → IsGroup g → HasShape (group_down_shape g) (group_initial_down g) }
    ensures initial_up { (g : PlainGroup) → IsGroup g → HasShape (group_up_shape g) (group_initial_up g) }
    ensures down { (g : PlainGroup) (layer value : ℕ) (state : List Prop) → IsGroup g → value < 128 → HasShape (group_down_shape g) state → HasShape (group_down_shape g) (group_down g layer value state) }
    ensures up { (g : PlainGroup) (layer value : ℕ) (state : List Prop) → IsGroup g → value < 128 → HasShape (group_up_shape g) state → HasShape (group_up_shape g) (group_up g layer value state) }
{}

/// A group of parts that are monotone is monotone.
pub fn monotone_parts_make_a_monotone_group()
    ensures { (g : PlainGroup) → All (λ (part : Part). IsMonotone part.bound) g.parts → IsMonotoneGroup g }
{}

/// A group of parts that have what revisions ask has it too.
pub fn revisable_parts_make_a_revisable_group()
    ensures { (g : PlainGroup) → IsGroup g → All (λ (part : Part). IsRevisable part.bound) g.parts → IsRevisableGroup g }
{}

/// Where no part's test names the bound on the cost, the tests of a group hold or not, the same for
/// each bound.
pub fn group_tests_without_best()
    ensures { (g : PlainGroup) (best other : ℤ) (layer value : ℕ) (down up : List Prop) → All (λ (part : Part). IsWithoutBest part.bound.spec) g.parts → group_passes g layer value best down up ≡ group_passes g layer value other down up }
{}

/// Where no part's test names the bound on the cost, a group accepts the same values for every bound.
pub fn group_acceptance_without_best()
    ensures { (g : PlainGroup) (best other : ℤ) (values : List ℕ) → All (λ (part : Part). IsWithoutBest part.bound.spec) g.parts → GroupAccepts g best values ↔ GroupAccepts g other values }
{}

/// The variables of each group of a valid problem are a scope of the problem: one or more of its
/// variables and at most 256, in the order of declaration, and each has a value.
pub fn valid_groups_have_scopes()
    ensures scope { (p : PlainProblem) → IsValid p → All (λ (g : PlainGroup). IsScope (length p.names) g.vars) p.groups }
    ensures few { (p : PlainProblem) → IsValid p → All (λ (g : PlainGroup). length g.vars ≤ most_variables) p.groups }
    ensures values { (p : PlainProblem) → IsValid p → All (λ (g : PlainGroup). All (λ (set : ℕ). 0 < length (members set)) (scope_values g.vars p.domains)) p.groups }
{}

/// A width that fits a problem fits each of its groups alone: so many rows in each of its layers have
/// no more entries than a group may have, and no more properties than all groups may have together.
pub fn fitting_widths_fit_each_group()
    ensures entries { (p : PlainProblem) (width : ℕ) → FitsWidth p width → All (λ (g : PlainGroup). width * group_values p.domains g ≤ most_group_entries) p.groups }
    ensures properties { (p : PlainProblem) (width : ℕ) → FitsWidth p width → All (λ (g : PlainGroup). width * group_properties g ≤ most_properties) p.groups }
{}
