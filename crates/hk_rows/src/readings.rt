//! What a diagram's table holds, read by its calls.

ghost use Rattle.std.specs.Prelude.{◌≡◌, ◌+◌, ◌<◌, ◌≤◌, ℕ, length, All, IsTrue};
ghost use Rattle.hk_kinds.specs.Shapes.{HasShape};
ghost use Rattle.hk_arena.specs.Diagrams.{DiagramLevels, IsRow, rows_of, values_of};

use crate::written::WrittenRow;
use hk_arena::{Diagram, RowId};
use hk_kinds::{Prop, State};
use hk_table::Entry;
use std::alloc::Global;

/// Whether a row before the last layer has these entries.
fn has_entries(diagram: &Diagram, row: RowId, written: &[Entry]) -> bool
    requires row { IsRow diagram.now.table row }
    requires layer { row.layer < length diagram.now.shape.domains }
{
    let values = diagram.values(row.layer);
    if usize::from(values) != written.len() {
        return false;
    }
    for at in 0..values {
        if diagram.entry(diagram.entry_id(row, at)) != written[usize::from(at)] {
            return false;
        }
    }
    true
}

/// Whether a row comes from these rows, asked for each row and of the set of all.
fn comes_so(diagram: &Diagram, row: RowId, written: &[u16]) -> bool
    requires { IsRow diagram.now.table row }
{
    let rows = diagram.from_rows(row);
    for old in 0..256 {
        let named = written.contains(&old);
        if diagram.comes_from(row, old) != named {
            return false;
        }
        if rows.has(old) != named {
            return false;
        }
    }
    true
}

/// Whether a row has these states, which are read into two that are lent.
fn has_states(
    diagram: &Diagram,
    row: RowId,
    written: &WrittenRow,
    down: &mut State,
    up: &mut State,
) -> bool
    requires row { IsRow diagram.now.table row }
    requires down { HasShape diagram.now.shape.down down.old }
    requires up { HasShape diagram.now.shape.up up.old }
    ensures down { HasShape diagram.now.shape.down down.new }
    ensures up { HasShape diagram.now.shape.up up.new }
{
    diagram.down(row, down);
    let has_up = diagram.up(row, up);
    is_state(down, written.down) && is_as_absent(has_up, up, written)
}

/// Whether a state has these properties.
fn is_state(state: &State, written: &[Prop]) -> bool {
    state.as_slice() == written
}

/// Whether an up state is there, and is the one that is written, or isn't where none is.
fn is_as_absent(has_up: bool, up: &State, written: &WrittenRow) -> bool {
    match written.up {
        Some(properties) => has_up && up.as_slice() == properties,
        None => !has_up,
    }
}

/// Whether a row has the entries that are written, of which the last layer has none.
fn is_led(diagram: &Diagram, row: RowId, written: &WrittenRow, last: u16) -> bool
    requires row { IsRow diagram.now.table row }
    requires last { last ≡ length diagram.now.shape.domains }
{
    if row.layer < last {
        has_entries(diagram, row, written.entries)
    } else {
        written.entries.is_empty()
    }
}

/// Whether a row is the one that is written so.
fn is_read(
    diagram: &Diagram,
    row: RowId,
    written: &WrittenRow,
    last: u16,
    down: &mut State,
    up: &mut State,
) -> bool
    requires row { IsRow diagram.now.table row }
    requires last { last ≡ length diagram.now.shape.domains }
    requires down { HasShape diagram.now.shape.down down.old }
    requires up { HasShape diagram.now.shape.up up.old }
    ensures down { HasShape diagram.now.shape.down down.new }
    ensures up { HasShape diagram.now.shape.up up.new }
{
    let states = has_states(diagram, row, written, down, up);
    states && comes_so(diagram, row, written.from) && is_led(diagram, row, written, last)
}

/// Whether the rows of a layer are those that are written so.
fn are_read(
    diagram: &Diagram,
    layer: u16,
    written: &[WrittenRow],
    last: u16,
    down: &mut State,
    up: &mut State,
) -> bool
    requires layer { layer ≤ last }
    requires last { last ≡ length diagram.now.shape.domains }
    requires down { HasShape diagram.now.shape.down down.old }
    requires up { HasShape diagram.now.shape.up up.old }
    ensures down { HasShape diagram.now.shape.down down.new }
    ensures up { HasShape diagram.now.shape.up up.new }
{
    let rows = diagram.rows(layer);
    if usize::from(rows) != written.len() {
        return false;
    }
    for at in 0..rows {
        let row = diagram.row(layer, at);
        if !is_read(diagram, row, &written[usize::from(at)], last, down, up) {
            return false;
        }
    }
    true
}

/// Whether a diagram's table is the one that is written so.
pub fn is_table_read(
    diagram: &Diagram,
    written: &[&[WrittenRow]],
    last: u16,
    down: &mut State,
    up: &mut State,
) -> bool
    requires last { last ≡ length diagram.now.shape.domains }
    requires down { HasShape diagram.now.shape.down down.old }
    requires up { HasShape diagram.now.shape.up up.old }
{
    if written.len() != usize::from(last) + 1 {
        return false;
    }
    for layer in 0..last {
        if !are_read(diagram, layer, written[usize::from(layer)], last, down, up) {
            return false;
        }
    }
    are_read(diagram, last, written[usize::from(last)], last, down, up)
}

/// Whether entries are those of these rows, one row after the other.
fn are_flat(entries: &[Entry], written: &[WrittenRow]) -> bool {
    let mut rest = entries;
    for row in written {
        if rest.len() < row.entries.len() {
            return false;
        }
        let (mine, others) = rest.split_at(row.entries.len());
        if mine != row.entries {
            return false;
        }
        rest = others;
    }
    rest.is_empty()
}

/// Whether the layers before the last have the entries that are written, where all of a layer are read at
/// once, into a list that holds those of the layer before.
pub fn are_entries_read(
    alloc: Global,
    diagram: &Diagram,
    written: &[&[WrittenRow]],
    last: u16,
) -> Option<bool>
    requires last { last ≡ length diagram.now.shape.domains }
{
    if written.len() <= usize::from(last) {
        return None;
    }
    let mut to = Vec::new(alloc);
    let mut told = true;
    for layer in 0..last {
        diagram.entries_into(layer, &mut to).ok()?;
        told = told && are_flat(to.as_slice(), written[usize::from(layer)]);
    }
    Some(told)
}

/// Whether the layers before the last have the values of these sets, so many each.
pub fn have_sets(diagram: &Diagram, sets: &[u128], counts: &[u16], last: u16) -> bool
    requires last { last ≡ length diagram.now.shape.domains }
{
    if sets.len() != usize::from(last) || counts.len() != sets.len() {
        return false;
    }
    for layer in 0..last {
        let at = usize::from(layer);
        if diagram.domain(layer) != sets[at] || diagram.values(layer) != counts[at] {
            return false;
        }
    }
    diagram.values(last) == 0
}
