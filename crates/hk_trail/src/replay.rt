//! Taking back the latest part of the log.

ghost use Rattle.std.specs.Prelude.{◌≡◌, ◌+◌, ◌<◌, ◌≤◌, All, length, take, drop, reverse, vec_len, vec_capacity};
ghost use Rattle.hk_trail.specs.Log.{undone};

use crate::cell::Cell;
use crate::saved::Saved;
use hk_cells::{Pool, Steps};
use std::sync::ledger::Ledger;

/// Takes back the latest `count` entries of a log, the latest first: each gives its cell the value and
/// the stamp that it saved.
pub(crate) fn replay<T: Cell, L: Ledger>(
    cells: &mut Pool<T>,
    stamps: &mut Vec<u32>,
    log: &mut Vec<Saved<T>>,
    count: usize,
    steps: &mut Steps<L>,
)
    requires counted { count ≤ length log.old.items }
    requires within { All (λ entry. entry.id < length cells.old) log.old.items }
    requires stamped { length cells.old ≤ length stamps.old.items }
    ensures cells { cells.new ≡ undone (λ entry. entry.value) (take count (reverse log.old.items)) cells.old }
    ensures size { length cells.new ≡ length cells.old }
    ensures stamps { stamps.new.items ≡ undone (λ entry. entry.stamp) (take count (reverse log.old.items)) stamps.old.items }
    ensures log { reverse log.new.items ≡ drop count (reverse log.old.items) }
    ensures within { All (λ entry. entry.id < length cells.new) log.new.items }
    ensures stamped { length cells.new ≤ length stamps.new.items }
    ensures capacity { vec_capacity log.new ≡ vec_capacity log.old }
    ensures shorter { vec_len log.new ≤ vec_len log.old }
    ensures ticks { steps.new ≡ steps.old + count }
{
    let mut left = count;
    'entries: while left > 0 {
        left -= 1;
        let Some(entry) = log.pop() else {
            unreachable!()
        };
        stamps[entry.id.place() as usize] = entry.stamp;
        cells.set(entry.id, entry.value, steps);
    }
}
