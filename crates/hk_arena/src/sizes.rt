//! How many cells states take, and where the words of each layer begin.
ghost use Rattle.std.specs.Prelude.{◌≡◌, ◌*◌, ◌^◌, ◌<◌, suc, length, IfOk};
ghost use Rattle.hk_arena.specs.Diagrams.{values_of};
ghost use Rattle.hk_arena.specs.Making.{IsMakeable};
ghost use Rattle.hk_arena.specs.Cells.{listed};
ghost use Rattle.hk_arena.specs.Forms.{nums_in, sets_in, words_at};

use crate::states::{num_count, set_count};
use hk_base::{list_of, pair};
use hk_kinds::Kind;
use hk_table::{Shape, value_count};
use std::alloc::{AllocError, Global};

/// How many cells of `i64` a state takes.
pub(crate) fn state_nums(kinds: &[Kind]) -> u32
    requires { 2 * length kinds.now < 2 ^ 32 }
    ensures { result ≡ nums_in kinds.now }
{
    let mut cells = 0;
    for kind in kinds {
        cells += num_count(*kind);
    }
    cells
}

/// How many cells of `u128` a state takes.
pub(crate) fn state_sets(kinds: &[Kind]) -> u32
    requires { length kinds.now < 2 ^ 32 }
    ensures { result ≡ sets_in kinds.now }
{
    let mut cells = 0;
    for kind in kinds {
        cells += set_count(*kind);
    }
    cells
}

/// How many values each layer has; the last one has none.
pub(crate) fn value_counts(alloc: Global, shape: &Shape) -> Result<Vec<u32>, AllocError>
    ensures { IfOk result (λ counts. counts.items ≡ listed (suc (length shape.now.domains)) (λ layer. length (values_of shape.now layer))) }
{
    let mut counts = Vec::new(alloc);
    for set in shape.domains.as_slice() {
        counts.push(value_count(*set))?;
    }
    counts.push(0)?;
    Ok(counts)
}

/// Where the words of each layer begin.
pub(crate) fn word_starts(alloc: Global, shape: &Shape, width: u16) -> Result<Vec<u32>, AllocError>
    requires { IsMakeable shape.now width }
    ensures { IfOk result (λ starts. starts.items ≡ listed (suc (length shape.now.domains)) (λ layer. words_at (record { shape = shape.now; width = width }) layer 0)) }
{
    let sets = shape.domains.as_slice();
    let mut starts = Vec::new(alloc);
    let mut next = sets.len() as u32 + 1;
    for set in sets {
        starts.push(next)?;
        next += width as u32 * (1 + value_count(*set));
    }
    starts.push(next)?;
    Ok(starts)
}

/// An equal shape.
pub(crate) fn copied(alloc: Global, shape: &Shape) -> Result<Shape, AllocError>
    ensures { IfOk result (λ copy. copy ≡ shape.now) }
{
    let ((down, up), domains) = pair(
        pair(shape.down.copy(), shape.up.copy()),
        list_of(alloc, shape.domains.as_slice()),
    )?;
    Ok(Shape { down, up, domains })
}
