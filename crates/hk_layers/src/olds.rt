//! The old rows that the values of a row on the way down lead to.
ghost use Rattle.std.specs.Prelude.{◌≡◌, ◌<◌, ◌≤◌, ◌+◌, ◌^◌, ◌||◌, ℕ, List, All, length, map, replicate, slice_index_or, OnOk};
ghost use Rattle.hk_base.specs.Sets.{Has};
ghost use Rattle.hk_table.specs.Tables.{PlainRow, flat_entries};
ghost use Rattle.hk_text.specs.Sets.{members, members_below};
ghost use Rattle.hk_layers.specs.Falling.{AreLong};
ghost use Rattle.hk_layers.specs.inside.Targets.{TakeIn, entry_at, has_row, leads_to, lists_of, rows_lead, targets_at};

use crate::spots::Spot;
use hk_table::{Entry, RowSet, split_least, value_count};
use std::alloc::AllocError;

/// Takes the row that a Live entry leads to into a set, where it is one of so many rows.
#[inline]
fn take_entry(entry: Entry, count: u16, set: &mut RowSet)
    requires count { count ≤ 256 }
    ensures { (c : ℕ) → has_row set.new c ≡ (has_row set.old c || leads_to count entry c) }
{
    if let Entry::Live(c) = entry {
        if c < count {
            set.insert(c);
        }
    }
}

/// Takes the rows that the entries of an old row lead to into the sets of their places.
fn take_row(entries: &[Entry], count: u16, sets: &mut [RowSet])
    requires count { count ≤ 256 }
    requires long { length entries.now ≡ length sets.old }
    ensures long { length sets.new ≡ length sets.old }
    ensures taken { TakeIn (λ place. leads_to count (slice_index_or entries.now place Entry.Gone)) sets.old sets.new }
{
    for place in 0..entries.len() {
        take_entry(entries[place], count, &mut sets[place]);
    }
}

/// The same of an old row with this number, of the entries of all old rows.
fn take_old(olds: &[Entry], row: usize, count: u16, sets: &mut [RowSet])
    requires row { row < 256 }
    requires count { count ≤ 256 }
    requires few { length sets.old < 2 ^ 32 }
    ensures long { length sets.new ≡ length sets.old }
    ensures taken { TakeIn (λ place. leads_to count (entry_at olds.now (length sets.old) row place)) sets.old sets.new }
{
    let width = sets.len();
    let first = row * width;
    if first + width <= olds.len() {
        take_row(&olds[first..first + width], count, sets);
    }
}

/// The same of the old rows of a half of a set, whose bit r stands for the row `first + r`.
fn take_half(olds: &[Entry], half: u128, first: usize, count: u16, sets: &mut [RowSet])
    requires first { first ≤ 128 }
    requires count { count ≤ 256 }
    requires few { length sets.old < 2 ^ 32 }
    ensures long { length sets.new ≡ length sets.old }
    ensures taken { TakeIn (rows_lead olds.now (length sets.old) count (map (λ row. first + row) (members half))) sets.old sets.new }
{
    let mut left = half;
    for _turn in 0..value_count(half) {
        let (row, rest) = split_least(left);
        left = rest;
        take_old(olds, first + row as usize, count, sets);
    }
}

/// The same of the old rows of a set.
fn take_all(olds: &[Entry], from: &RowSet, count: u16, sets: &mut [RowSet])
    requires count { count ≤ 256 }
    requires few { length sets.old < 2 ^ 32 }
    ensures long { length sets.new ≡ length sets.old }
    ensures taken { TakeIn (rows_lead olds.now (length sets.old) count (members_below from.now 256)) sets.old sets.new }
{
    let (low, high) = from.halves();
    take_half(olds, low, 0, count, sets);
    take_half(olds, high, 128, count, sets);
}

/// The same, into the sets of a list.
fn take_into(olds: &[Entry], from: &RowSet, count: u16, sets: &mut Vec<RowSet>)
    requires count { count ≤ 256 }
    requires few { length sets.old.items < 2 ^ 32 }
    ensures long { length sets.new.items ≡ length sets.old.items }
    ensures taken { TakeIn (rows_lead olds.now (length sets.old.items) count (members_below from.now 256)) sets.old.items sets.new.items }
{
    take_all(olds, from, count, sets.as_mut_slice());
}

/// Becomes so many sets of no row.
fn empty_sets(count: usize, sets: &mut Vec<RowSet>) -> Result<(), AllocError>
    ensures { OnOk result (sets.new.items ≡ replicate count 0) }
{
    sets.clear();
    for _made in 0..count {
        sets.push(RowSet::empty())?;
    }
    Ok(())
}

/// Writes, for each value of the layer, the set of old rows that it leads to from some old rows, of the
/// entries of all of them.
pub(crate) fn read_targets(
    spot: &Spot<'_>,
    olds: &[Entry],
    count: u16,
    from: &RowSet,
    sets: &mut Vec<RowSet>,
) -> Result<(), AllocError>
    requires count { count ≤ 256 }
    ensures targets { (old old_next : List PlainRow) → AreLong (length (members spot.now.values)) old → length old_next ≡ count → olds.now ≡ flat_entries old → OnOk result (lists_of sets.new.items ≡ targets_at spot.now old old_next (members_below from.now 256)) }
    ensures long { OnOk result (length sets.new.items ≡ length (members spot.now.values)) }
    ensures within { OnOk result (All (λ (set : ℕ). (c : ℕ) → Has set c → c < count) sets.new.items) }
{
    empty_sets(value_count(spot.values) as usize, sets)?;
    take_into(olds, from, count, sets);
    Ok(())
}
