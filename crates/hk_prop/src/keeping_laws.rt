//! What the passes of a node keep, which the contracts of these functions state. The functions do
//! nothing.
ghost use Rattle.std.specs.Prelude.{ℕ, ℤ, pos, ◌<◌, ◌<ℤ◌, ◌≤ℤ◌, List, IsNone, IsSome};
ghost use Rattle.hk_group.specs.Problems.{PlainProblem, IsValid};
ghost use Rattle.hk_group.specs.Solutions.{IsSolution, cost_of};
ghost use Rattle.hk_sweep.specs.OneValue.{AreOnly};
ghost use Rattle.hk_table.specs.Keeps.{LieIn};
ghost use Rattle.hk_domains.specs.Domains.{AreSets};
ghost use Rattle.hk_prop.specs.Contents.{Content, opening_content, first_empty};
ghost use Rattle.hk_prop.specs.Keeping.{KeepsSolutions, LosesNone, HasNone, AreInside};
ghost use Rattle.hk_prop.specs.Passes.{node_passes};
ghost use Rattle.hk_prop.specs.Standing.{IsStanding};

/// Where every table keeps every solution in the domains below the bound, it does so after the passes
/// of a node too, and no such solution is lost. They leave a variable without value only where there
/// was none.
pub fn passes_lose_no_solution()
    ensures keeps { (p : PlainProblem) (width : ℕ) (best : ℤ) (at : Content) → IsValid p → 0 < width → KeepsSolutions p best at → KeepsSolutions p best (node_passes p width best at).last }
    ensures loses_none { (p : PlainProblem) (width : ℕ) (best : ℤ) (at : Content) → IsValid p → 0 < width → KeepsSolutions p best at → LosesNone p best at.domains (node_passes p width best at).last.domains }
    ensures empty { (p : PlainProblem) (width : ℕ) (best : ℤ) (at : Content) → IsValid p → 0 < width → KeepsSolutions p best at → IsSome (first_empty (node_passes p width best at).last.domains) → HasNone p best at.domains }
{}

/// The opening tables keep every solution.
pub fn opening_tables_keep_every_solution()
    ensures { (p : PlainProblem) (best : ℤ) → IsValid p → KeepsSolutions p best (opening_content p) }
{}

/// What is kept of the solutions is kept of those in fewer domains, or below a lower bound.
pub fn fewer_candidates_are_kept()
    ensures { (p : PlainProblem) (best lower : ℤ) (at : Content) (domains : List ℕ) → AreInside domains at.domains → lower ≤ℤ best → KeepsSolutions p best at → KeepsSolutions p lower (record at { domains = domains }) }
{}

/// What holds of every content in a search holds where the root stands and after the passes of a
/// node, and goes on holding with fewer values and below a lower bound.
pub fn every_content_stands()
    ensures opening { (p : PlainProblem) (best : ℤ) → IsValid p → IsStanding p best (opening_content p) }
    ensures passes { (p : PlainProblem) (width : ℕ) (best : ℤ) (at : Content) → IsValid p → 0 < width → IsStanding p best at → IsStanding p best (node_passes p width best at).last }
    ensures fewer { (p : PlainProblem) (best lower : ℤ) (at : Content) (domains : List ℕ) → AreInside domains at.domains → AreSets domains → lower ≤ℤ best → IsStanding p best at → IsStanding p lower (record at { domains = domains }) }
{}

/// Where the passes of a node leave each variable one value, these values are a solution, and cost
/// less than the bound, which is above 0 where there is no objective.
pub fn one_value_each_is_a_solution()
    ensures { (p : PlainProblem) (width : ℕ) (best : ℤ) (at : Content) (values : List ℕ) → IsValid p → 0 < width → IsStanding p best at
        → LieIn (node_passes p width best at).last.domains values → AreOnly (node_passes p width best at).last.domains values → (IsNone p.objective → pos 0 <ℤ best)
        → IsSolution p values × (cost_of p values <ℤ best) }
{}
