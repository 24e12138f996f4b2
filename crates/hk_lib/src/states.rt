//! The states of the exact runs of the library, which the contracts of these functions state. The
//! functions do nothing. The numbers in the states are the very counts and sums, at most 256 and
//! 32,512,000,000 in size: none of them was clamped.
ghost use Rattle.std.specs.Prelude.{◌≡◌, ℕ, ℤ, pos, neg_ℤ, ◌-◌, ◌<◌, ◌≤◌, ◌≤ℤ◌, List, [], ◌∷◌, length, take, drop, slice_get, Some, All};
ghost use Rattle.hk_kinds.specs.declared.properties.Prop.TheVariants as property;
ghost use Rattle.hk_spec.specs.Arguments.{IsCoefficient};
ghost use Rattle.hk_spec.specs.Library.{alldifferent_bound, among_bound, objective_bound, sequence_bound, sum_bound};
ghost use Rattle.hk_spec.specs.Meanings.{count_in, set_of, weighted_sum};
ghost use Rattle.hk_spec.specs.Runs.{exact_down, exact_up};

/// Those of `alldifferent` are the set of the earlier and the set of the later values, each twice.
pub fn alldifferent_states()
    ensures down { (n : ℕ) (values : List ℕ) → exact_down (alldifferent_bound n) values ≡ property.Bits (set_of values) ∷ property.Bits (set_of values) ∷ [] }
    ensures up { (n position : ℕ) (values : List ℕ) → exact_up (alldifferent_bound n) position values ≡ property.Bits (set_of values) ∷ property.Bits (set_of values) ∷ [] }
{}

/// Those of `among`, and of a row of `gcc`, are how many of the earlier and how many of the later
/// values are in the set.
pub fn among_states()
    ensures down { (n set : ℕ) (least most : ℤ) (values : List ℕ) → length values ≤ 256 → All (λ value. value < 128) values
        → exact_down (among_bound n set least most) values ≡ property.Pair (pos (count_in set values)) (pos (count_in set values)) ∷ [] }
    ensures up { (n set : ℕ) (least most : ℤ) (position : ℕ) (values : List ℕ) → length values ≤ 256 → All (λ value. value < 128) values
        → exact_up (among_bound n set least most) position values ≡ property.Pair (pos (count_in set values)) (pos (count_in set values)) ∷ [] }
{}

/// The property at each place of the down state of `sequence` is how many of the earlier values, but
/// for as many of the latest as the place says, are in the set. It has no up properties.
pub fn sequence_states()
    ensures down { (n window set : ℕ) (least most : ℤ) (values : List ℕ) (place : ℕ) → place < window → length values ≤ 256
        → slice_get (exact_down (sequence_bound n window set least most) values) place ≡ Some (property.Pair (pos (count_in set (take (length values - place) values))) (pos (count_in set (take (length values - place) values)))) }
    ensures length { (n window set : ℕ) (least most : ℤ) (values : List ℕ) → 1 ≤ window → length values ≤ 256 → length (exact_down (sequence_bound n window set least most) values) ≡ window }
    ensures up { (n window set : ℕ) (least most : ℤ) (position : ℕ) (values : List ℕ) → exact_up (sequence_bound n window set least most) position values ≡ [] }
{}

/// Those of `sum` are the sums of coefficient times value of the earlier and of the later values.
/// Values past the last coefficient add nothing.
pub fn sum_states()
    ensures down { (coefs : List ℤ) (least most : ℤ) (values : List ℕ) → All IsCoefficient coefs → length values ≤ 256 → All (λ value. value < 128) values
        → exact_down (sum_bound coefs least most) values ≡ property.Pair (weighted_sum coefs values) (weighted_sum coefs values) ∷ [] }
    ensures up { (coefs : List ℤ) (least most : ℤ) (position : ℕ) (values : List ℕ) → All IsCoefficient coefs → length values ≤ 256 → All (λ value. value < 128) values
        → exact_up (sum_bound coefs least most) position values ≡ property.Pair (weighted_sum (drop position coefs) values) (weighted_sum (drop position coefs) values) ∷ [] }
{}

/// Those of the objective are the same sums.
pub fn objective_states()
    ensures down { (coefs : List ℤ) (values : List ℕ) → All IsCoefficient coefs → length values ≤ 256 → All (λ value. value < 128) values
        → exact_down (objective_bound coefs) values ≡ property.Num (weighted_sum coefs values) ∷ [] }
    ensures up { (coefs : List ℤ) (position : ℕ) (values : List ℕ) → All IsCoefficient coefs → length values ≤ 256 → All (λ value. value < 128) values
        → exact_up (objective_bound coefs) position values ≡ property.Num (weighted_sum (drop position coefs) values) ∷ [] }
{}

/// Such a sum of at most 256 values is at most 32,512,000,000 in size.
pub fn sums_are_small()
    ensures least { (coefs : List ℤ) (values : List ℕ) → All IsCoefficient coefs → length values ≤ 256 → All (λ value. value < 128) values → neg_ℤ (pos 32512000000) ≤ℤ weighted_sum coefs values }
    ensures most { (coefs : List ℤ) (values : List ℕ) → All IsCoefficient coefs → length values ≤ 256 → All (λ value. value < 128) values → weighted_sum coefs values ≤ℤ pos 32512000000 }
{}
