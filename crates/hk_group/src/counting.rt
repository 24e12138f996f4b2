//! Counts of values over the variables of a scope, and the constraints that ask for them.

ghost use Rattle.std.specs.Prelude.{◌≡◌, ◌<◌, ◌≤◌, ◌↔◌, ℕ, pos, length, slice_index, All, IsTrue};
ghost use Rattle.std.specs.Int.{bit_at};
ghost use Rattle.hk_spec.specs.Meanings.{LiesFrom, count_in, occurrences, EachWindow, EachOccurs};
ghost use Rattle.hk_group.specs.Limits.{most_variables, value_count};
ghost use Rattle.hk_group.specs.Problems.{IsRow};
ghost use Rattle.hk_group.specs.Solutions.{scope_values};

/// How many variables of the scope have a value of the set.
pub fn count_in(set: u128, scope: &[u16], values: &[u8]) -> u32
    requires declared { All (λ variable. variable < length values.now) scope.now }
    requires few { length scope.now ≤ most_variables }
    requires small { All (λ value. value < value_count) values.now }
    ensures { result ≡ count_in set (scope_values scope.now values.now) }
{
    let mut count = 0;
    for variable in scope {
        count += bit_of(set, values[*variable as usize]);
    }
    count
}

/// Whether the count lies from the least to the most.
pub fn lies_from(least: i64, most: i64, count: u32) -> bool
    ensures { IsTrue result ↔ LiesFrom least most (pos count) }
{
    let count = i64::from(count);
    least <= count && count <= most
}

/// Whether each window of `window` consecutive variables of the scope has from `least` to `most`
/// values in the set. From each window to the next one value comes in and one leaves.
pub fn each_window(
    window: u16,
    set: u128,
    least: i64,
    most: i64,
    scope: &[u16],
    values: &[u8],
) -> bool
    requires declared { All (λ variable. variable < length values.now) scope.now }
    requires few { length scope.now ≤ most_variables }
    requires small { All (λ value. value < value_count) values.now }
    requires some { 1 ≤ window }
    ensures { IsTrue result ↔ EachWindow window set least most (scope_values scope.now values.now) }
{
    let others = window as usize - 1;
    if scope.len() < others {
        return true;
    }
    let (begun, coming) = scope.split_at(others);
    let mut count = count_in(set, begun, values);
    for (leaves, comes) in scope.iter().zip(coming) {
        count += bit_of(set, values[*comes as usize]);
        if !lies_from(least, most, count) {
            return false;
        }
        count -= bit_of(set, values[*leaves as usize]);
    }
    true
}

/// Whether each row's value is that of as many variables of the scope as the row's bounds say.
pub fn each_occurs(rows: &[(u8, i64, i64)], scope: &[u16], values: &[u8]) -> bool
    requires rows { All IsRow rows.now }
    requires declared { All (λ variable. variable < length values.now) scope.now }
    requires few { length scope.now ≤ most_variables }
    requires small { All (λ value. value < value_count) values.now }
    ensures { IsTrue result ↔ EachOccurs rows.now (scope_values scope.now values.now) }
{
    let counts = counts_of(scope, values);
    for row in rows {
        if !lies_from(row.1, row.2, u32::from(counts[row.0 as usize])) {
            return false;
        }
    }
    true
}

/// How many variables of the scope have each value.
fn counts_of(scope: &[u16], values: &[u8]) -> [u16; 128]
    requires declared { All (λ variable. variable < length values.now) scope.now }
    requires few { length scope.now ≤ most_variables }
    requires small { All (λ value. value < value_count) values.now }
    ensures { (value : ℕ) → value < value_count → slice_index result value ≡ occurrences value (scope_values scope.now values.now) }
{
    let mut counts = no_counts();
    for variable in scope {
        counts[values[*variable as usize] as usize] += 1;
    }
    counts
}

/// A count of 0 for each value.
fn no_counts() -> [u16; 128]
    ensures long { length result ≡ value_count }
    ensures none { (value : ℕ) → value < value_count → slice_index result value ≡ 0 }
{
    [0u16; 128]
}

/// 1 where the set has the value, else 0.
fn bit_of(set: u128, value: u8) -> u32
    requires small { value < value_count }
    ensures { result ≡ bit_at set value }
{
    ((set >> value) & 1) as u32
}
