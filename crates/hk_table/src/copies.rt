//! Equal rows and tables.
ghost use Rattle.std.specs.Prelude.{◌≡◌, [], ◌∷◌, ◌++◌, IfOk, OnOk};

use crate::tables::{Layers, Row, Table};
use hk_base::{List, list_of, pair};
use hk_kinds::State;
use std::alloc::{AllocError, Global};

impl Row {
    /// An equal row.
    pub fn copy(&self, alloc: Global) -> Result<Row, AllocError>
        ensures { IfOk result (λ row. row ≡ self.now) }
    {
        let ((down, up), (from, entries)) = pair(
            pair(self.down.copy(), copied_state(&self.up)),
            pair(
                list_of(alloc, self.from.as_slice()),
                list_of(alloc, self.entries.as_slice()),
            ),
        )?;
        Ok(Row {
            down,
            up,
            from,
            entries,
        })
    }
}

impl Table {
    /// An equal table.
    pub fn copy(&self, alloc: Global) -> Result<Table, AllocError>
        ensures { IfOk result (λ table. table ≡ self.now) }
    {
        let mut layers = List::new(alloc);
        for layer in self.layers.as_slice() {
            if let Err(refused) = push_layer(alloc, &mut layers, layer.as_slice()) {
                drop(layers);
                return Err(refused);
            }
        }
        Ok(Table { layers })
    }
}

/// An equal state, where there is one.
fn copied_state(state: &Option<State>) -> Result<Option<State>, AllocError>
    ensures { IfOk result (λ copy. copy ≡ state.now) }
{
    match state {
        None => Ok(None),
        Some(state) => match state.copy() {
            Ok(state) => Ok(Some(state)),
            Err(refused) => Err(refused),
        },
    }
}

/// Puts a copy of a layer at the end of layers.
fn push_layer(alloc: Global, layers: &mut Layers, rows: &[Row]) -> Result<(), AllocError>
    ensures { OnOk result (layers.new ≡ layers.old ++ rows.now ∷ []) }
{
    match copied_rows(alloc, rows) {
        Ok(rows) => layers.push(rows),
        Err(refused) => Err(refused),
    }
}

/// Equal rows, in their order.
fn copied_rows(alloc: Global, rows: &[Row]) -> Result<List<Row>, AllocError>
    ensures { IfOk result (λ copies. copies ≡ rows.now) }
{
    let mut copies = List::new(alloc);
    for row in rows {
        if let Err(refused) = push_row(alloc, &mut copies, row) {
            drop(copies);
            return Err(refused);
        }
    }
    Ok(copies)
}

/// Puts a copy of a row at the end of rows.
fn push_row(alloc: Global, rows: &mut List<Row>, row: &Row) -> Result<(), AllocError>
    ensures { OnOk result (rows.new ≡ rows.old ++ row.now ∷ []) }
{
    match row.copy(alloc) {
        Ok(row) => rows.push(row),
        Err(refused) => Err(refused),
    }
}
