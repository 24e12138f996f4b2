//! That the rows of `gcc` keep the rules of specifications and are graded, and that no constraint of the
//! library names the bound on the cost, which the contracts of these functions state. The functions do
//! nothing.
ghost use Rattle.std.specs.Prelude.{ℕ, ℤ, ◌<◌, ◌≤◌, List, All};
ghost use Rattle.hk_kinds.specs.Limits.{IsWithinLimit};
ghost use Rattle.hk_spec.specs.Grades.{IsGraded};
ghost use Rattle.hk_spec.specs.Library.{alldifferent_spec, among_spec, gcc_bounds, sequence_spec, sum_spec};
ghost use Rattle.hk_spec.specs.Specifications.{BoundSpecification, IsBound, IsWithoutBest};

/// Each row of `gcc` keeps the rules with its arguments too, where its value is below 128 and its bounds
/// are within the limit, and is graded.
pub fn rows_keep_the_rules()
    ensures fits { (n : ℕ) (rows : List (ℕ × ℤ × ℤ)) → n < 65536 → All (λ row. row.0 < 128) rows → All (λ row. IsWithinLimit row.1) rows → All (λ row. IsWithinLimit row.2) rows → All IsBound (gcc_bounds n rows) }
    ensures graded { (n : ℕ) (rows : List (ℕ × ℤ × ℤ)) → All (λ (bound : BoundSpecification). IsGraded bound.spec) (gcc_bounds n rows) }
{}

/// The test of none of the constraints names the bound on the cost, which that of the objective does.
pub fn constraints_are_without_best()
    ensures alldifferent { IsWithoutBest alldifferent_spec }
    ensures among { IsWithoutBest among_spec }
    ensures sequence { (window : ℕ) → 1 ≤ window → window ≤ 32 → IsWithoutBest (sequence_spec window) }
    ensures gcc { (n : ℕ) (rows : List (ℕ × ℤ × ℤ)) → All (λ (bound : BoundSpecification). IsWithoutBest bound.spec) (gcc_bounds n rows) }
    ensures sum { IsWithoutBest sum_spec }
{}
