//! States in cells of a store: the numbers of a state lie one after the other, and so do its sets.
ghost use Rattle.std.specs.Prelude.{◌≡◌, ◌+◌, ◌*◌, ◌<◌, ◌≤◌, ◌^◌, length, pos, slice_index_or, OnOk};
ghost use Rattle.hk_kinds.specs.Limits.{IsWithinLimit};
ghost use Rattle.hk_kinds.specs.Shapes.{HasShape, IsOfKind};
ghost use Rattle.hk_kinds.specs.declared.properties.Prop.TheVariants.{Num};
ghost use Rattle.hk_arena.specs.Forms.{kind_nums, kind_sets, nums_in, sets_in};
ghost use Rattle.hk_arena.specs.Properties.{property_at, state_at};
ghost use Rattle.hk_arena.specs.inside.Writes.{HasRoom, IsWritten, state_spans};

use crate::cells::{write_num, write_set};
use hk_cells::Steps;
use hk_kinds::{Kind, Prop, State, StateView};
use hk_trail::Store;
use std::alloc::AllocError;
use std::sync::ledger::Ledger;

/// Makes two cells hold the numbers of an interval.
#[inline]
fn write_pair<L: Ledger>(
    store: &mut Store,
    at: u32,
    low: i64,
    high: i64,
    steps: &mut Steps<L>,
) -> Result<(), AllocError>
    requires place { at + 1 < length store.old.content.nums }
    requires few { length store.old.content.nums < 2 ^ 32 }
    requires low { IsWithinLimit low }
    requires high { IsWithinLimit high }
    ensures low { OnOk result (slice_index_or store.new.content.nums at (pos 0) ≡ low) }
    ensures high { OnOk result (slice_index_or store.new.content.nums (at + 1) (pos 0) ≡ high) }
    ensures written { IsWritten (state_spans at 2 0 0) 2 store.old store.new }
    ensures ticks { steps.new ≤ steps.old + 2 }
{
    write_num(store, at, low, steps)?;
    write_num(store, at + 1, high, steps)?;
    Ok(())
}

/// Writes the property of a state at a place, whose kind is known, to cells.
#[inline]
fn write_property<L: Ledger>(
    store: &mut Store,
    kind: Kind,
    num: u32,
    set: u32,
    value: &StateView<'_>,
    at: usize,
    steps: &mut Steps<L>,
) -> Result<(), AllocError>
    requires room { HasRoom (state_spans num (kind_nums kind) set (kind_sets kind)) store.old.content }
    requires place { at < length value.now }
    requires kind { IsOfKind kind (slice_index_or value.now at (Num (pos 0))) }
    ensures ok { OnOk result (property_at kind num set store.new.content.nums store.new.content.bits ≡ slice_index_or value.now at (Num (pos 0))) }
    ensures written { IsWritten (state_spans num (kind_nums kind) set (kind_sets kind)) 2 store.old store.new }
    ensures ticks { steps.new ≤ steps.old + 2 }
{
    match kind {
        Kind::Min | Kind::Max => write_num(store, num, value.number(at), steps),
        Kind::Interval => write_pair(store, num, value.low(at), value.high(at), steps),
        Kind::SomeBits | Kind::AllBits => write_set(store, set, value.set(at), steps),
    }
}

/// How many cells of `i64` a property takes.
#[inline]
pub(crate) fn num_count(kind: Kind) -> u32
    ensures { result ≡ kind_nums kind }
{
    match kind {
        Kind::Min | Kind::Max => 1,
        Kind::Interval => 2,
        Kind::SomeBits | Kind::AllBits => 0,
    }
}

/// How many cells of `u128` a property takes.
#[inline]
pub(crate) fn set_count(kind: Kind) -> u32
    ensures { result ≡ kind_sets kind }
{
    match kind {
        Kind::Min | Kind::Max | Kind::Interval => 0,
        Kind::SomeBits | Kind::AllBits => 1,
    }
}

/// Writes a state to cells, its numbers from `first_num` on and its sets from `first_set` on.
pub(crate) fn write_state<L: Ledger>(
    store: &mut Store,
    kinds: &[Kind],
    first_num: u32,
    first_set: u32,
    value: &StateView<'_>,
    steps: &mut Steps<L>,
) -> Result<(), AllocError>
    requires room { HasRoom (state_spans first_num (nums_in kinds.now) first_set (sets_in kinds.now)) store.old.content }
    requires shape { HasShape kinds.now value.now }
    ensures ok { OnOk result (state_at kinds.now first_num first_set store.new.content.nums store.new.content.bits ≡ value.now) }
    ensures written { IsWritten (state_spans first_num (nums_in kinds.now) first_set (sets_in kinds.now)) (2 * length value.now) store.old store.new }
    ensures ticks { steps.new ≤ steps.old + 2 * length value.now }
{
    let mut num = first_num;
    let mut set = first_set;
    for at in 0..kinds.len() {
        let kind = kinds[at];
        write_property(store, kind, num, set, value, at, steps)?;
        num += num_count(kind);
        set += set_count(kind);
    }
    Ok(())
}

/// The property of a kind that cells hold.
#[inline]
fn read_property(store: &Store, kind: Kind, num: u32, set: u32) -> Prop
    requires { HasRoom (state_spans num (kind_nums kind) set (kind_sets kind)) store.now.content }
    ensures { result ≡ property_at kind num set store.now.content.nums store.now.content.bits }
{
    match kind {
        Kind::Min | Kind::Max => Prop::Num(store.get_num(store.num_id(num))),
        Kind::Interval => Prop::Pair(
            store.get_num(store.num_id(num)),
            store.get_num(store.num_id(num + 1)),
        ),
        Kind::SomeBits | Kind::AllBits => Prop::Bits(store.get_bits(store.bits_id(set))),
    }
}

/// Reads a state from cells, its numbers from `first_num` on and its sets from `first_set` on.
pub(crate) fn read_state(
    store: &Store,
    kinds: &[Kind],
    first_num: u32,
    first_set: u32,
    to: &mut State,
)
    requires room { HasRoom (state_spans first_num (nums_in kinds.now) first_set (sets_in kinds.now)) store.now.content }
    requires shape { HasShape kinds.now to.old }
    ensures { to.new ≡ state_at kinds.now first_num first_set store.now.content.nums store.now.content.bits }
{
    let mut num = first_num;
    let mut set = first_set;
    for at in 0..kinds.len() {
        let kind = kinds[at];
        to.set(at, read_property(store, kind, num, set));
        num += num_count(kind);
        set += set_count(kind);
    }
}
