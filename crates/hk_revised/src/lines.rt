//! A diagram's table as the lines of a certificate.

ghost use Rattle.std.specs.Prelude.{◌≡◌, ◌<◌, ◌≤◌, length};
ghost use Rattle.hk_kinds.specs.Shapes.{HasShape};
ghost use Rattle.hk_arena.specs.Diagrams.{IsRow};
ghost use Rattle.hk_group.specs.Groups.{group_down_shape, group_up_shape};

use hk_arena::{Diagram, RowId};
use hk_base::Bytes;
use hk_group::Group;
use hk_kinds::{Prop, State};
use hk_table::Entry;
use hk_text::{push_number, push_set};
use std::alloc::{AllocError, Global};

/// Appends a property.
fn push_property(out: &mut Bytes, property: Prop) -> Result<(), AllocError> {
    match property {
        Prop::Num(n) => push_number(out, n),
        Prop::Pair(low, high) => {
            push_number(out, low)?;
            out.push_all(b"..")?;
            push_number(out, high)
        }
        Prop::Bits(set) => push_set(out, set),
    }
}

/// Appends a state.
fn push_state(out: &mut Bytes, properties: &[Prop]) -> Result<(), AllocError> {
    out.push_all(b"[")?;
    for at in 0..properties.len() {
        if at > 0 {
            out.push_all(b";")?;
        }
        push_property(out, properties[at])?;
    }
    out.push_all(b"]")
}

/// Appends a letter and the number of a row.
fn push_named(out: &mut Bytes, letter: &[u8], row: u16) -> Result<(), AllocError> {
    out.push_all(letter)?;
    push_number(out, i64::from(row))
}

/// Appends an entry.
fn push_entry(out: &mut Bytes, entry: Entry) -> Result<(), AllocError> {
    match entry {
        Entry::Gone => out.push_all(b"g"),
        Entry::Cut => out.push_all(b"c"),
        Entry::Dead(row) => push_named(out, b"d", row),
        Entry::Live(row) => push_named(out, b"l", row),
    }
}

/// Appends the entries of a row before the last layer.
fn push_entries(out: &mut Bytes, diagram: &Diagram, row: RowId) -> Result<(), AllocError>
    requires row { IsRow diagram.now.table row }
    requires layer { row.layer < length diagram.now.shape.domains }
{
    for at in 0..diagram.values(row.layer) {
        if at > 0 {
            out.push_all(b",")?;
        }
        push_entry(out, diagram.entry(diagram.entry_id(row, at)))?;
    }
    Ok(())
}

/// Appends the rows that a row comes from.
fn push_from(out: &mut Bytes, diagram: &Diagram, row: RowId) -> Result<(), AllocError>
    requires { IsRow diagram.now.table row }
{
    let mut first = true;
    for old in 0..256u16 {
        if diagram.comes_from(row, old) {
            if !first {
                out.push_all(b",")?;
            }
            push_number(out, i64::from(old))?;
            first = false;
        }
    }
    Ok(())
}

/// Appends the states of a row: the down state, and the up state or a sign that there is none.
fn push_states(
    out: &mut Bytes,
    down: &[Prop],
    has_up: bool,
    up: &[Prop],
) -> Result<(), AllocError> {
    out.push_all(b"row ")?;
    push_state(out, down)?;
    out.push_all(b" ")?;
    if has_up {
        push_state(out, up)
    } else {
        out.push_all(b"-")
    }
}

/// Appends what comes after the states of a row. The last layer is told.
fn push_rest(out: &mut Bytes, diagram: &Diagram, row: RowId, last: u16) -> Result<(), AllocError>
    requires row { IsRow diagram.now.table row }
    requires last { last ≡ length diagram.now.shape.domains }
{
    out.push_all(b" ")?;
    push_from(out, diagram, row)?;
    out.push_all(b" ")?;
    if row.layer < last {
        push_entries(out, diagram, row)?;
    } else {
        out.push_all(b"-")?;
    }
    out.push_all(b"\n")
}

/// Appends the line of a row, whose states are read into two that are lent.
fn push_row(
    out: &mut Bytes,
    diagram: &Diagram,
    row: RowId,
    last: u16,
    down: &mut State,
    up: &mut State,
) -> Result<(), AllocError>
    requires row { IsRow diagram.now.table row }
    requires last { last ≡ length diagram.now.shape.domains }
    requires down { HasShape diagram.now.shape.down down.old }
    requires up { HasShape diagram.now.shape.up up.old }
    ensures down { HasShape diagram.now.shape.down down.new }
    ensures up { HasShape diagram.now.shape.up up.new }
{
    diagram.down(row, down);
    let has_up = diagram.up(row, up);
    push_states(out, down.as_slice(), has_up, up.as_slice())?;
    push_rest(out, diagram, row, last)
}

/// Appends the lines of a layer.
fn push_layer(
    out: &mut Bytes,
    diagram: &Diagram,
    layer: u16,
    last: u16,
    down: &mut State,
    up: &mut State,
) -> Result<(), AllocError>
    requires layer { layer ≤ last }
    requires last { last ≡ length diagram.now.shape.domains }
    requires down { HasShape diagram.now.shape.down down.old }
    requires up { HasShape diagram.now.shape.up up.old }
    ensures down { HasShape diagram.now.shape.down down.new }
    ensures up { HasShape diagram.now.shape.up up.new }
{
    let rows = diagram.rows(layer);
    push_named(out, b"layer ", rows)?;
    out.push_all(b"\n")?;
    for at in 0..rows {
        push_row(out, diagram, diagram.row(layer, at), last, down, up)?;
    }
    Ok(())
}

/// Appends the lines of all layers.
fn push_layers(
    out: &mut Bytes,
    diagram: &Diagram,
    last: u16,
    down: &mut State,
    up: &mut State,
) -> Result<(), AllocError>
    requires last { last ≡ length diagram.now.shape.domains }
    requires down { HasShape diagram.now.shape.down down.old }
    requires up { HasShape diagram.now.shape.up up.old }
{
    for layer in 0..last {
        push_layer(out, diagram, layer, last, down, up)?;
    }
    push_layer(out, diagram, last, last, down, up)
}

/// Appends the lines of the table of a diagram of a group, of which the last layer is told.
pub fn push_table(
    alloc: Global,
    out: &mut Bytes,
    diagram: &Diagram,
    group: &Group,
    last: u16,
) -> Result<(), AllocError>
    requires last { last ≡ length diagram.now.shape.domains }
    requires down { diagram.now.shape.down ≡ group_down_shape group.now }
    requires up { diagram.now.shape.up ≡ group_up_shape group.now }
{
    let (down_shape, up_shape) = group.shapes();
    let mut down = State::top(alloc, down_shape)?;
    let mut up = State::top(alloc, up_shape)?;
    group.init_down(&mut down);
    group.init_up(&mut up);
    push_layers(out, diagram, last, &mut down, &mut up)
}
