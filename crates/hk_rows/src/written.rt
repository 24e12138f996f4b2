//! Rows, tables and shapes as tests write them out, and the rows, tables and shapes that are so.

use hk_base::{List, list_of, pair};
use hk_kinds::{Kind, Prop, Shape1, State};
use hk_table::{Entry, Layers, Row, Shape, Table};
use std::alloc::{AllocError, Global};

/// The kinds of the states of a group of a sum and a cost, each way.
pub const SUM_AND_COST: &[Kind] = &[Kind::Interval, Kind::Min];

/// A row: the properties of its states, the rows that it comes from, and its entries.
#[derive(Clone, Copy)]
pub struct WrittenRow {
    pub down: &'static [Prop],
    pub up: Option<&'static [Prop]>,
    pub from: &'static [u16],
    pub entries: &'static [Entry],
}

/// The state of these properties.
fn state_of(alloc: Global, properties: &[Prop]) -> Result<State, AllocError> {
    let mut state = State::new(alloc);
    for property in properties {
        state.push(*property)?;
    }
    Ok(state)
}

/// The state of these properties, or none where there are none.
fn up_of(alloc: Global, properties: Option<&[Prop]>) -> Result<Option<State>, AllocError> {
    match properties {
        None => Ok(None),
        Some(properties) => match state_of(alloc, properties) {
            Ok(state) => Ok(Some(state)),
            Err(refused) => Err(refused),
        },
    }
}

/// The row that is written so.
pub fn row_of(alloc: Global, written: &WrittenRow) -> Result<Row, AllocError> {
    let ((down, up), (from, entries)) = pair(
        pair(state_of(alloc, written.down), up_of(alloc, written.up)),
        pair(
            list_of(alloc, written.from),
            list_of(alloc, written.entries),
        ),
    )?;
    Ok(Row {
        down,
        up,
        from,
        entries,
    })
}

/// Puts a row at the end of a layer.
fn push_row(alloc: Global, layer: &mut List<Row>, written: &WrittenRow) -> Result<(), AllocError> {
    match row_of(alloc, written) {
        Ok(row) => layer.push(row),
        Err(refused) => Err(refused),
    }
}

/// Puts rows at the end of a layer.
fn push_rows(
    alloc: Global,
    layer: &mut List<Row>,
    written: &[WrittenRow],
) -> Result<(), AllocError> {
    for row in written {
        push_row(alloc, layer, row)?;
    }
    Ok(())
}

/// Puts a layer at the end of layers.
fn push_layer(
    alloc: Global,
    layers: &mut Layers,
    written: &[WrittenRow],
) -> Result<(), AllocError> {
    let mut layer = List::new(alloc);
    match push_rows(alloc, &mut layer, written) {
        Ok(()) => layers.push(layer),
        Err(refused) => {
            drop(layer);
            Err(refused)
        }
    }
}

/// Puts layers at the end of layers.
fn push_layers(
    alloc: Global,
    layers: &mut Layers,
    written: &[&[WrittenRow]],
) -> Result<(), AllocError> {
    for rows in written {
        push_layer(alloc, layers, *rows)?;
    }
    Ok(())
}

/// The table whose layers are written so.
pub fn table_of(alloc: Global, written: &[&[WrittenRow]]) -> Result<Table, AllocError> {
    let mut layers = List::new(alloc);
    match push_layers(alloc, &mut layers, written) {
        Ok(()) => Ok(Table { layers }),
        Err(refused) => {
            drop(layers);
            Err(refused)
        }
    }
}

/// The shape of states with these kinds.
fn kinds_of(alloc: Global, kinds: &[Kind]) -> Result<Shape1, AllocError> {
    let mut shape = Shape1::new(alloc);
    for kind in kinds {
        shape.push(*kind)?;
    }
    Ok(shape)
}

/// The shape of tables with these kinds of states, and these sets of values.
pub fn shape_of(
    alloc: Global,
    down: &[Kind],
    up: &[Kind],
    sets: &[u128],
) -> Result<Shape, AllocError> {
    let ((down, up), domains) = pair(
        pair(kinds_of(alloc, down), kinds_of(alloc, up)),
        list_of(alloc, sets),
    )?;
    Ok(Shape { down, up, domains })
}

/// Whether an up state has these properties, or is as absent as they are.
fn is_up(up: &Option<State>, written: Option<&[Prop]>) -> bool {
    match (up, written) {
        (None, None) => true,
        (Some(state), Some(properties)) => state.as_slice() == properties,
        _ => false,
    }
}

/// Whether a row is the one that is written so.
pub fn is_row(row: &Row, written: &WrittenRow) -> bool {
    row.down.as_slice() == written.down
        && is_up(&row.up, written.up)
        && row.from.as_slice() == written.from
        && row.entries.as_slice() == written.entries
}

/// Whether a layer has the rows that are written so.
fn is_layer(rows: &[Row], written: &[WrittenRow]) -> bool {
    if rows.len() != written.len() {
        return false;
    }
    for at in 0..rows.len() {
        if !is_row(&rows[at], &written[at]) {
            return false;
        }
    }
    true
}

/// Whether a table has the layers that are written so.
pub fn is_table(table: &Table, written: &[&[WrittenRow]]) -> bool {
    let layers = table.layers.as_slice();
    if layers.len() != written.len() {
        return false;
    }
    for at in 0..layers.len() {
        if !is_layer(layers[at].as_slice(), written[at]) {
            return false;
        }
    }
    true
}
