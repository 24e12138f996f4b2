//! Trails: what a pop gives back, in stores of no cells and of many.

ghost use Rattle.std.specs.Prelude.{◌≡◌, ◌+◌, ◌<◌, ◌≤◌, ◌^◌, [], length, OnOk};
ghost use Rattle.hk_trail.specs.Pools.{HasSizes};

use hk_cells::Steps;
use hk_trail::Store;
use std::alloc::{AllocError, Global};
use std::marker::Brand;
use std::sync::ledger::{Blank, Ledger};
use std::test::Fail;

/// Writes the first of two cells twice in a level, and gives what it holds after the level.
fn undo_two<L: Ledger>(store: &mut Store, steps: &mut Steps<L>) -> Result<i64, AllocError>
    requires nums { store.old.content.nums ≡ [] }
    requires stack { store.old.stack ≡ [] }
{
    store.grow_num(2, 0)?;
    let first = store.num_id(0);
    let second = store.num_id(1);
    store.push()?;
    store.reserve(3)?;
    store.set_num(first, 5, steps)?;
    store.set_num(first, 7, steps)?;
    store.set_num(second, 0, steps)?;
    store.pop(steps);
    Ok(store.get_num(first))
}

/// What the first of two cells of 0 holds after a level in which it was written twice.
fn undone<L: Ledger>(alloc: Global, steps: &mut Steps<L>) -> Result<i64, AllocError> {
    let mut store = Store::new(alloc);
    undo_two(&mut store, steps)
}

/// Goes down by `levels` pushes, with a write of another cell after each, and back.
fn descend<L: Ledger>(
    store: &mut Store,
    levels: u32,
    steps: &mut Steps<L>,
) -> Result<(), AllocError>
    requires cells { levels ≤ length store.old.content.nums }
    requires depth { length store.old.stack + levels < 2 ^ 32 }
    ensures content { OnOk result (store.new.content ≡ store.old.content) }
    ensures stack { OnOk result (store.new.stack ≡ store.old.stack) }
{
    if levels == 0 {
        return Ok(());
    }
    store.push()?;
    let id = store.num_id(levels - 1);
    store.set_num(id, 1, steps)?;
    descend(store, levels - 1, steps)?;
    store.pop(steps);
    Ok(())
}

/// Gives an empty store `cells` cells of 0 in each pool.
fn grow(store: &mut Store, cells: u32) -> Result<(), AllocError>
    requires nums { store.old.content.nums ≡ [] }
    requires bits { store.old.content.bits ≡ [] }
    requires words { store.old.content.words ≡ [] }
    requires stack { store.old.stack ≡ [] }
    ensures nums { OnOk result (length store.new.content.nums ≡ cells) }
    ensures bits { OnOk result (length store.new.content.bits ≡ cells) }
    ensures words { OnOk result (length store.new.content.words ≡ cells) }
    ensures stack { OnOk result (store.new.stack ≡ []) }
{
    store.grow_num(cells, 0)?;
    store.grow_bits(cells, 0)?;
    store.grow_word(cells, 0)
}

/// Writes a value into each of the first `cells` cells of `i64`.
fn fill_nums<L: Ledger>(
    store: &mut Store,
    cells: u32,
    value: i64,
    steps: &mut Steps<L>,
) -> Result<(), AllocError>
    requires { cells ≤ length store.old.content.nums }
    ensures sizes { HasSizes store.old.content store.new.content }
    ensures stack { store.new.stack ≡ store.old.stack }
{
    for at in 0..cells {
        store.set_num(store.num_id(at), value, steps)?;
    }
    Ok(())
}

/// Writes a value into each of the first `cells` cells of `u128`.
fn fill_bits<L: Ledger>(
    store: &mut Store,
    cells: u32,
    value: u128,
    steps: &mut Steps<L>,
) -> Result<(), AllocError>
    requires { cells ≤ length store.old.content.bits }
    ensures sizes { HasSizes store.old.content store.new.content }
    ensures stack { store.new.stack ≡ store.old.stack }
{
    for at in 0..cells {
        store.set_bits(store.bits_id(at), value, steps)?;
    }
    Ok(())
}

/// Writes a value into each of the first `cells` cells of `u32`.
fn fill_words<L: Ledger>(
    store: &mut Store,
    cells: u32,
    value: u32,
    steps: &mut Steps<L>,
) -> Result<(), AllocError>
    requires { cells ≤ length store.old.content.words }
    ensures sizes { HasSizes store.old.content store.new.content }
    ensures stack { store.new.stack ≡ store.old.stack }
{
    for at in 0..cells {
        store.set_word(store.word_id(at), value, steps)?;
    }
    Ok(())
}

/// Writes 1 and then 2 into each cell of all pools.
fn fill_twice<L: Ledger>(
    store: &mut Store,
    cells: u32,
    steps: &mut Steps<L>,
) -> Result<(), AllocError>
    requires nums { cells ≤ length store.old.content.nums }
    requires bits { cells ≤ length store.old.content.bits }
    requires words { cells ≤ length store.old.content.words }
    ensures sizes { HasSizes store.old.content store.new.content }
    ensures stack { store.new.stack ≡ store.old.stack }
{
    for value in 1..3u32 {
        fill_nums(store, cells, value as i64, steps)?;
        fill_bits(store, cells, value as u128, steps)?;
        fill_words(store, cells, value, steps)?;
    }
    Ok(())
}

/// What the cell at a place holds in each pool.
fn held_at(store: &Store, at: u32) -> (i64, u128, u32)
    requires nums { at < length store.now.content.nums }
    requires bits { at < length store.now.content.bits }
    requires words { at < length store.now.content.words }
{
    let num = store.get_num(store.num_id(at));
    let bits = store.get_bits(store.bits_id(at));
    let word = store.get_word(store.word_id(at));
    (num, bits, word)
}

/// Writes each cell of all pools twice in one level and closes it.
fn undo_all<L: Ledger>(
    store: &mut Store,
    cells: u32,
    steps: &mut Steps<L>,
) -> Result<(), AllocError>
    requires nums { length store.old.content.nums ≡ cells }
    requires bits { length store.old.content.bits ≡ cells }
    requires words { length store.old.content.words ≡ cells }
    requires stack { store.old.stack ≡ [] }
    ensures sizes { OnOk result (HasSizes store.old.content store.new.content) }
{
    store.push()?;
    fill_twice(store, cells, steps)?;
    store.pop(steps);
    Ok(())
}

/// Grows an empty store, goes down by `levels` levels and back, writes each cell of all pools twice in one
/// level, closes it, and gives what the last cell of each pool holds.
fn run_through<L: Ledger>(
    store: &mut Store,
    cells: u32,
    levels: u32,
    steps: &mut Steps<L>,
) -> Result<(i64, u128, u32), AllocError>
    requires cells { (0 < cells) × (levels ≤ cells) }
    requires nums { store.old.content.nums ≡ [] }
    requires bits { store.old.content.bits ≡ [] }
    requires words { store.old.content.words ≡ [] }
    requires stack { store.old.stack ≡ [] }
{
    grow(store, cells)?;
    descend(store, levels, steps)?;
    undo_all(store, cells, steps)?;
    Ok(held_at(store, cells - 1))
}

/// What the last cell of each pool of a store of so many cells holds after it.
fn large<L: Ledger>(
    alloc: Global,
    cells: u32,
    levels: u32,
    steps: &mut Steps<L>,
) -> Result<(i64, u128, u32), AllocError>
    requires { (0 < cells) × (levels ≤ cells) }
{
    let mut store = Store::new(alloc);
    run_through(&mut store, cells, levels, steps)
}

/// Grows an empty store, makes room for as many writes as it has cells in each pool, opens its first level and
/// closes it, and gives how many levels were open in between.
fn open_one<L: Ledger>(
    store: &mut Store,
    cells: u32,
    steps: &mut Steps<L>,
) -> Result<u32, AllocError>
    requires nums { store.old.content.nums ≡ [] }
    requires bits { store.old.content.bits ≡ [] }
    requires words { store.old.content.words ≡ [] }
    requires stack { store.old.stack ≡ [] }
{
    grow(store, cells)?;
    store.reserve(cells)?;
    store.push()?;
    let depth = store.depth();
    store.pop(steps);
    Ok(depth)
}

/// How many levels are open in the first level of a store of so many cells in each pool.
fn opened<L: Ledger>(alloc: Global, cells: u32, steps: &mut Steps<L>) -> Result<u32, AllocError> {
    let mut store = Store::new(alloc);
    open_one(&mut store, cells, steps)
}

/// What the first of two cells holds after a level, what the last of many cells in each pool holds after many
/// levels, and how many levels are open in the first level of three stores.
type Told = (i64, (i64, u128, u32), [u32; 3]);

/// What is told of stores of two cells, of a million cells in each pool through 4,000 levels and one more, and
/// of no cells, of one and of a million.
fn told<L: Ledger>(alloc: Global, steps: &mut Steps<L>) -> Result<Told, AllocError> {
    let first = undone(alloc, steps)?;
    let last = large(alloc, 1_000_000, 4_000, steps)?;
    let none = opened(alloc, 0, steps)?;
    let one = opened(alloc, 1, steps)?;
    let many = opened(alloc, 1_000_000, steps)?;
    Ok((first, last, [none, one, many]))
}

/// The same with a counter of its own.
fn told_from_the_start<L: Ledger>(alloc: Global, blank: Blank) -> Result<Told, AllocError>
    requires name { blank.name ≡ L.name }
    requires parts { blank.parts ≡ L.parts }
    requires some { 0 < blank.parts }
{
    let mut steps = Steps::<L>::start(blank);
    told(alloc, &mut steps)
}

#[test]
fn a_pop_gives_back_what_a_level_wrote(rt: HostRuntime) -> Result<(), Fail> {
    let told = told_from_the_start::<Brand>(rt.alloc(), Blank::new(1))?;
    assert_eq!(rt; told, (0, (0, 0, 0), [1, 1, 1]));
    Ok(())
}
