//! Writes of one cell of a store.
ghost use Rattle.std.specs.Prelude.{◌≡◌, ◌+◌, ◌<◌, ◌≤◌, length, pos, slice_index_or, OnOk};
ghost use Rattle.hk_kinds.specs.Limits.{IsWithinLimit};
ghost use Rattle.hk_kinds.specs.Sets.{IsSet};
ghost use Rattle.hk_arena.specs.inside.Writes.{IsWritten, state_spans, word_spans};

use hk_cells::Steps;
use hk_trail::Store;
use std::alloc::AllocError;
use std::sync::ledger::Ledger;

/// Makes a cell hold a number.
#[inline]
pub(crate) fn write_num<L: Ledger>(
    store: &mut Store,
    at: u32,
    value: i64,
    steps: &mut Steps<L>,
) -> Result<(), AllocError>
    requires place { at < length store.old.content.nums }
    requires limit { IsWithinLimit value }
    ensures ok { OnOk result (slice_index_or store.new.content.nums at (pos 0) ≡ value) }
    ensures written { IsWritten (state_spans at 1 0 0) 1 store.old store.new }
    ensures ticks { steps.new ≤ steps.old + 1 }
{
    store.set_num(store.num_id(at), value, steps)
}

/// Makes a cell hold a set.
#[inline]
pub(crate) fn write_set<L: Ledger>(
    store: &mut Store,
    at: u32,
    value: u128,
    steps: &mut Steps<L>,
) -> Result<(), AllocError>
    requires place { at < length store.old.content.bits }
    requires set { IsSet value }
    ensures ok { OnOk result (slice_index_or store.new.content.bits at 0 ≡ value) }
    ensures written { IsWritten (state_spans 0 0 at 1) 1 store.old store.new }
    ensures ticks { steps.new ≤ steps.old + 1 }
{
    store.set_bits(store.bits_id(at), value, steps)
}

/// Makes a cell hold a word.
#[inline]
pub(crate) fn write_word<L: Ledger>(
    store: &mut Store,
    at: u32,
    value: u32,
    steps: &mut Steps<L>,
) -> Result<(), AllocError>
    requires { at < length store.old.content.words }
    ensures ok { OnOk result (slice_index_or store.new.content.words at 0 ≡ value) }
    ensures written { IsWritten (word_spans at) 1 store.old store.new }
    ensures ticks { steps.new ≤ steps.old + 1 }
{
    store.set_word(store.word_id(at), value, steps)
}
