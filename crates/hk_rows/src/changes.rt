//! Calls that change a diagram, as tests write them out. What they ask for is judged as a test runs.

ghost use Rattle.std.specs.Prelude.{◌≡◌, ◌+◌, ◌<◌, ◌≤◌, ℕ, length, slice_index, All, IsTrue};
ghost use Rattle.hk_arena.specs.Diagrams.{DiagramLevels, IsRow, rows_of, values_of};
ghost use Rattle.hk_kinds.specs.Shapes.{HasShape};

use crate::filling::fill;
use crate::written::WrittenRow;
use hk_arena::{Diagram, RowId};
use hk_cells::Steps;
use hk_kinds::{Prop, State};
use hk_table::{Entry, RowSet, Shape};
use std::sync::ledger::Ledger;

/// A call that changes a diagram.
#[derive(Clone, Copy)]
pub enum Change {
    /// Of a row, the place of an entry and what it is made.
    Entry(RowId, u16, Entry),
    /// Of a layer, how many rows it gets: no fewer than it has.
    Rows(u16, u16),
    /// The same, of any number.
    Resize(u16, u16),
    Down(RowId, &'static [Prop]),
    Up(RowId, Option<&'static [Prop]>),
    From(RowId, &'static [u16]),
    /// All parts of a row at once.
    Row(RowId, WrittenRow),
}

/// Whether a row is there, in a diagram whose last layer is told.
fn is_row(diagram: &Diagram, row: RowId, last: u16) -> bool
    requires { last ≡ length diagram.now.shape.domains }
    ensures layer { IsTrue result → row.layer ≤ last }
    ensures row { IsTrue result → IsRow diagram.now.table row }
{
    row.layer <= last && row.at < diagram.rows(row.layer)
}

/// Makes an entry another one.
fn set_entry<L: Ledger>(
    diagram: &mut Diagram,
    last: u16,
    row: RowId,
    at: u16,
    entry: Entry,
    steps: &mut Steps<L>,
) -> Option<()>
    requires last { last ≡ length diagram.old.shape.domains }
    ensures { diagram.new ≡ record diagram.old { table = diagram.new.table; numbers = diagram.new.numbers } }
{
    if row.layer >= last || !is_row(diagram, row, last) || at >= diagram.values(row.layer) {
        return None;
    }
    let id = diagram.entry_id(row, at);
    diagram.set_entry(id, entry, steps).ok()
}

/// Gives a layer so many rows, where it has no more.
fn set_rows<L: Ledger>(
    diagram: &mut Diagram,
    last: u16,
    width: u16,
    layer: u16,
    rows: u16,
    steps: &mut Steps<L>,
) -> Option<()>
    requires last { last ≡ length diagram.old.shape.domains }
    requires width { diagram.old.width ≡ width }
    ensures { diagram.new ≡ record diagram.old { table = diagram.new.table; numbers = diagram.new.numbers } }
{
    if layer > last || rows > width || diagram.rows(layer) > rows {
        return None;
    }
    diagram.set_rows(layer, rows, steps).ok()
}

/// Gives a layer so many rows.
fn resize<L: Ledger>(
    diagram: &mut Diagram,
    last: u16,
    width: u16,
    layer: u16,
    rows: u16,
    steps: &mut Steps<L>,
) -> Option<()>
    requires last { last ≡ length diagram.old.shape.domains }
    requires width { diagram.old.width ≡ width }
    ensures { diagram.new ≡ record diagram.old { table = diagram.new.table; numbers = diagram.new.numbers } }
{
    if layer > last || rows > width {
        return None;
    }
    diagram.resize(layer, rows, steps).ok()
}

/// Gives a row another down state.
fn set_down<L: Ledger>(
    diagram: &mut Diagram,
    shape: &Shape,
    last: u16,
    row: RowId,
    properties: &[Prop],
    state: &mut State,
    steps: &mut Steps<L>,
) -> Option<()>
    requires shape { diagram.old.shape ≡ shape.now }
    requires last { last ≡ length diagram.old.shape.domains }
    requires state { HasShape shape.now.down state.old }
    ensures diagram { diagram.new ≡ record diagram.old { table = diagram.new.table; numbers = diagram.new.numbers } }
    ensures state { HasShape shape.now.down state.new }
{
    if !is_row(diagram, row, last) || !fill(state, shape.down.as_slice(), properties) {
        return None;
    }
    diagram.set_down(row, state, steps).ok()
}

/// Gives a row another up state.
fn set_some_up<L: Ledger>(
    diagram: &mut Diagram,
    shape: &Shape,
    last: u16,
    row: RowId,
    properties: &[Prop],
    state: &mut State,
    steps: &mut Steps<L>,
) -> Option<()>
    requires shape { diagram.old.shape ≡ shape.now }
    requires last { last ≡ length diagram.old.shape.domains }
    requires state { HasShape shape.now.up state.old }
    ensures diagram { diagram.new ≡ record diagram.old { table = diagram.new.table; numbers = diagram.new.numbers } }
    ensures state { HasShape shape.now.up state.new }
{
    if !is_row(diagram, row, last) || !fill(state, shape.up.as_slice(), properties) {
        return None;
    }
    diagram.set_up(row, Some(state), steps).ok()
}

/// Takes the up state of a row away.
fn set_no_up<L: Ledger>(
    diagram: &mut Diagram,
    last: u16,
    row: RowId,
    steps: &mut Steps<L>,
) -> Option<()>
    requires last { last ≡ length diagram.old.shape.domains }
    ensures { diagram.new ≡ record diagram.old { table = diagram.new.table; numbers = diagram.new.numbers } }
{
    if !is_row(diagram, row, last) {
        return None;
    }
    diagram.set_up(row, None, steps).ok()
}

/// Whether numbers ascend.
fn ascend(numbers: &[u16]) -> bool
    ensures { IsTrue result → (k : ℕ) → k + 1 < length numbers.now → slice_index numbers.now k < slice_index numbers.now (k + 1) }
{
    for at in 0..numbers.len() {
        if at + 1 < numbers.len() && numbers[at] >= numbers[at + 1] {
            return false;
        }
    }
    true
}

/// Whether numbers are below another.
fn are_below(numbers: &[u16], width: u16) -> bool
    ensures { IsTrue result → All (λ number. number < width) numbers.now }
{
    numbers.iter().all(|number| *number < width)
}

/// Says which rows a row comes from.
fn set_from<L: Ledger>(
    diagram: &mut Diagram,
    last: u16,
    width: u16,
    row: RowId,
    from: &[u16],
    steps: &mut Steps<L>,
) -> Option<()>
    requires last { last ≡ length diagram.old.shape.domains }
    requires width { diagram.old.width ≡ width }
    ensures { diagram.new ≡ record diagram.old { table = diagram.new.table; numbers = diagram.new.numbers } }
{
    if from.is_empty() || !ascend(from) || !are_below(from, width) || !is_row(diagram, row, last) {
        return None;
    }
    diagram.set_from(row, from, steps).ok()
}

/// The set of these rows, where all are below 256.
fn set_of(rows: &[u16]) -> Option<RowSet> {
    let mut set = RowSet::empty();
    for row in rows {
        if *row >= 256 {
            return None;
        }
        set.insert(*row);
    }
    Some(set)
}

/// Writes all parts of a row at once. Its states are made in two that are lent.
fn set_row<L: Ledger>(
    diagram: &mut Diagram,
    shape: &Shape,
    last: u16,
    row: RowId,
    written: &WrittenRow,
    down: &mut State,
    up: &mut State,
    steps: &mut Steps<L>,
) -> Option<()>
    requires shape { diagram.old.shape ≡ shape.now }
    requires last { last ≡ length diagram.old.shape.domains }
    requires down { HasShape shape.now.down down.old }
    requires up { HasShape shape.now.up up.old }
    ensures diagram { diagram.new ≡ record diagram.old { table = diagram.new.table; numbers = diagram.new.numbers } }
    ensures down { HasShape shape.now.down down.new }
    ensures up { HasShape shape.now.up up.new }
{
    if !is_row(diagram, row, last)
        || written.entries.len() != usize::from(diagram.values(row.layer))
    {
        return None;
    }
    let from = set_of(written.from)?;
    if !fill(down, shape.down.as_slice(), written.down) {
        return None;
    }
    match written.up {
        None => diagram
            .set_row(row, &down.view(), None, &from, written.entries, steps)
            .ok(),
        Some(properties) => {
            if !fill(up, shape.up.as_slice(), properties) {
                return None;
            }
            let view = up.view();
            diagram
                .set_row(row, &down.view(), Some(view), &from, written.entries, steps)
                .ok()
        }
    }
}

/// Makes a call.
fn make_change<L: Ledger>(
    diagram: &mut Diagram,
    shape: &Shape,
    last: u16,
    width: u16,
    change: &Change,
    down: &mut State,
    up: &mut State,
    steps: &mut Steps<L>,
) -> Option<()>
    requires shape { diagram.old.shape ≡ shape.now }
    requires last { last ≡ length diagram.old.shape.domains }
    requires width { diagram.old.width ≡ width }
    requires down { HasShape shape.now.down down.old }
    requires up { HasShape shape.now.up up.old }
    ensures diagram { diagram.new ≡ record diagram.old { table = diagram.new.table; numbers = diagram.new.numbers } }
    ensures down { HasShape shape.now.down down.new }
    ensures up { HasShape shape.now.up up.new }
{
    match *change {
        Change::Entry(row, at, entry) => set_entry(diagram, last, row, at, entry, steps),
        Change::Rows(layer, rows) => set_rows(diagram, last, width, layer, rows, steps),
        Change::Resize(layer, rows) => resize(diagram, last, width, layer, rows, steps),
        Change::Down(row, state) => set_down(diagram, shape, last, row, state, down, steps),
        Change::Up(row, None) => set_no_up(diagram, last, row, steps),
        Change::Up(row, Some(state)) => set_some_up(diagram, shape, last, row, state, up, steps),
        Change::From(row, from) => set_from(diagram, last, width, row, from, steps),
        Change::Row(row, written) => {
            set_row(diagram, shape, last, row, &written, down, up, steps)
        }
    }
}

/// Makes calls, one after the other.
pub fn make_changes<L: Ledger>(
    diagram: &mut Diagram,
    shape: &Shape,
    last: u16,
    width: u16,
    changes: &[Change],
    down: &mut State,
    up: &mut State,
    steps: &mut Steps<L>,
) -> Option<()>
    requires shape { diagram.old.shape ≡ shape.now }
    requires last { last ≡ length diagram.old.shape.domains }
    requires width { diagram.old.width ≡ width }
    requires down { HasShape shape.now.down down.old }
    requires up { HasShape shape.now.up up.old }
    ensures diagram { diagram.new ≡ record diagram.old { table = diagram.new.table; numbers = diagram.new.numbers } }
    ensures down { HasShape shape.now.down down.new }
    ensures up { HasShape shape.now.up up.new }
{
    for change in changes {
        make_change(diagram, shape, last, width, change, down, up, steps)?;
    }
    Some(())
}
