//! That the library's specifications keep the rules of specifications, with their arguments too, are
//! graded, and have what a revision asks, which the contracts of these functions state. The functions
//! do nothing.
ghost use Rattle.std.specs.Prelude.{ℕ, ℤ, ◌<◌, ◌≤◌, List, length, All};
ghost use Rattle.hk_kinds.specs.Limits.{IsWithinLimit};
ghost use Rattle.hk_kinds.specs.Sets.{IsSet};
ghost use Rattle.hk_spec.specs.Arguments.{IsCoefficient};
ghost use Rattle.hk_spec.specs.Grades.{IsGraded};
ghost use Rattle.hk_spec.specs.Library.{alldifferent_bound, alldifferent_spec, among_bound, among_spec, gcc_bound, objective_bound, objective_spec, sequence_bound, sequence_spec, sum_bound, sum_spec};
ghost use Rattle.hk_spec.specs.Monotone.{IsRevisable};
ghost use Rattle.hk_spec.specs.Specifications.{IsBound, IsSpecification};

use hk_grade::graded_is_revisable;

/// Each specification of the library keeps the rules of specifications; that of `sequence` for the
/// windows from 1 to 32.
pub fn library_keeps_the_rules()
    ensures alldifferent { IsSpecification alldifferent_spec }
    ensures among { IsSpecification among_spec }
    ensures sequence { (window : ℕ) → 1 ≤ window → window ≤ 32 → IsSpecification (sequence_spec window) }
    ensures sum { IsSpecification sum_spec }
    ensures objective { IsSpecification objective_spec }
{}

/// Each specification of the library is graded.
pub fn library_is_graded()
    ensures alldifferent { IsGraded alldifferent_spec }
    ensures among { IsGraded among_spec }
    ensures sequence { (window : ℕ) → IsGraded (sequence_spec window) }
    ensures sum { IsGraded sum_spec }
    ensures objective { IsGraded objective_spec }
{}

/// Each keeps the rules with its arguments too, where they are within the limits.
pub fn library_arguments_fit()
    ensures alldifferent { (n : ℕ) → n < 65536 → IsBound (alldifferent_bound n) }
    ensures among { (n set : ℕ) (least most : ℤ) → n < 65536 → IsSet set → IsWithinLimit least → IsWithinLimit most → IsBound (among_bound n set least most) }
    ensures gcc { (n : ℕ) (row : ℕ × ℤ × ℤ) → n < 65536 → row.0 < 128 → IsWithinLimit row.1 → IsWithinLimit row.2 → IsBound (gcc_bound n row) }
    ensures sequence { (n window set : ℕ) (least most : ℤ) → n < 65536 → 1 ≤ window → window ≤ 32 → IsSet set → IsWithinLimit least → IsWithinLimit most → IsBound (sequence_bound n window set least most) }
    ensures sum { (coefs : List ℤ) (least most : ℤ) → length coefs < 65536 → All IsCoefficient coefs → IsWithinLimit least → IsWithinLimit most → IsBound (sum_bound coefs least most) }
    ensures objective { (coefs : List ℤ) → length coefs < 65536 → All IsCoefficient coefs → IsBound (objective_bound coefs) }
{}

/// With such arguments each has what a revision asks.
pub fn library_is_revisable()
    ensures alldifferent { (n : ℕ) → n < 65536 → IsRevisable (alldifferent_bound n) }
    ensures among { (n set : ℕ) (least most : ℤ) → n < 65536 → IsSet set → IsWithinLimit least → IsWithinLimit most → IsRevisable (among_bound n set least most) }
    ensures gcc { (n : ℕ) (row : ℕ × ℤ × ℤ) → n < 65536 → row.0 < 128 → IsWithinLimit row.1 → IsWithinLimit row.2 → IsRevisable (gcc_bound n row) }
    ensures sequence { (n window set : ℕ) (least most : ℤ) → n < 65536 → 1 ≤ window → window ≤ 32 → IsSet set → IsWithinLimit least → IsWithinLimit most → IsRevisable (sequence_bound n window set least most) }
    ensures sum { (coefs : List ℤ) (least most : ℤ) → length coefs < 65536 → All IsCoefficient coefs → IsWithinLimit least → IsWithinLimit most → IsRevisable (sum_bound coefs least most) }
    ensures objective { (coefs : List ℤ) → length coefs < 65536 → All IsCoefficient coefs → IsRevisable (objective_bound coefs) }
{
    graded_is_revisable();
}
