//! What the exact runs of the library accept, which the contracts of these functions state. The
//! functions do nothing. A run of at most 256 values, each below 128, with coefficients of at most
//! 1,000,000 in size, is exact: none of its numbers meets the limit at which numbers are clamped.
ghost use Rattle.std.specs.Prelude.{◌≡◌, ◌↔◌, ℕ, ℤ, ◌<◌, ◌≤◌, ◌<ℤ◌, List, length, All};
ghost use Rattle.hk_spec.specs.Arguments.{IsCoefficient};
ghost use Rattle.hk_spec.specs.Library.{alldifferent_bound, among_bound, gcc_bounds, objective_bound, sequence_bound, sum_bound};
ghost use Rattle.hk_spec.specs.Meanings.{AreAmong, AreDifferent, EachOccurs, EachWindow, SumLies, weighted_sum};
ghost use Rattle.hk_spec.specs.Runs.{Accepts};

/// `alldifferent` accepts the lists of values of which no two are equal.
pub fn alldifferent_accepts()
    ensures { (best : ℤ) (values : List ℕ) → length values ≤ 256 → All (λ value. value < 128) values
        → Accepts (alldifferent_bound (length values)) best values ↔ AreDifferent values }
{}

/// `among` accepts the lists of which so many values are in the set.
pub fn among_accepts()
    ensures { (set : ℕ) (least most best : ℤ) (values : List ℕ) → 0 < length values → length values ≤ 256 → All (λ value. value < 128) values
        → Accepts (among_bound (length values) set least most) best values ↔ AreAmong set least most values }
{}

/// `sequence` accepts the lists of which each window has so many values in the set.
pub fn sequence_accepts()
    ensures { (window set : ℕ) (least most best : ℤ) (values : List ℕ) → 1 ≤ window → window ≤ 32 → length values ≤ 256 → All (λ value. value < 128) values
        → Accepts (sequence_bound (length values) window set least most) best values ↔ EachWindow window set least most values }
{}

/// All rows of `gcc` accept the lists in which each row's value occurs so often.
pub fn gcc_accepts()
    ensures { (rows : List (ℕ × ℤ × ℤ)) (best : ℤ) (values : List ℕ) → 0 < length values → length values ≤ 256 → All (λ value. value < 128) values
        → All (λ bound. Accepts bound best values) (gcc_bounds (length values) rows) ↔ EachOccurs rows values }
{}

/// `sum` accepts the lists whose sum of coefficient times value lies in its bounds.
pub fn sum_accepts()
    ensures { (coefs : List ℤ) (least most best : ℤ) (values : List ℕ) → All IsCoefficient coefs → length values ≡ length coefs → 0 < length values → length values ≤ 256 → All (λ value. value < 128) values
        → Accepts (sum_bound coefs least most) best values ↔ SumLies coefs least most values }
{}

/// The objective accepts the lists whose sum of coefficient times value is below the bound on the
/// cost.
pub fn objective_accepts()
    ensures { (coefs : List ℤ) (best : ℤ) (values : List ℕ) → All IsCoefficient coefs → length values ≡ length coefs → 0 < length values → length values ≤ 256 → All (λ value. value < 128) values
        → Accepts (objective_bound coefs) best values ↔ (weighted_sum coefs values <ℤ best) }
{}
