//! The opening table, from which a search begins.
ghost use Rattle.std.specs.Prelude.{◌≡◌, ℕ, List, [], ◌∷◌, ◌++◌, length, replicate, IfOk, OnOk};
ghost use Rattle.hk_table.specs.Opening.{opening_row, opening_table};
ghost use Rattle.hk_text.specs.Sets.{members};

use crate::entries::Entry;
use crate::tables::{Layers, Row, Shape, Table};
use crate::value_sets::value_count;
use hk_base::{List, list_of, pair};
use hk_kinds::State;
use std::alloc::{AllocError, Global};

impl Table {
    /// The opening table: one row a layer, whose states cover all and whose entries are all Live.
    pub fn opening(alloc: Global, shape: &Shape) -> Result<Table, AllocError>
        ensures { IfOk result (λ table. table ≡ opening_table shape.now) }
    {
        let mut layers = List::new(alloc);
        match push_layers(alloc, &mut layers, shape) {
            Ok(()) => Ok(Table { layers }),
            Err(refused) => {
                drop(layers);
                Err(refused)
            }
        }
    }
}

/// Puts the layers of the opening table at the end of layers.
fn push_layers(alloc: Global, layers: &mut Layers, shape: &Shape) -> Result<(), AllocError>
    ensures { OnOk result (layers.new ≡ layers.old ++ opening_table shape.now) }
{
    for set in shape.domains.as_slice() {
        push_layer(alloc, layers, shape, *set)?;
    }
    push_layer(alloc, layers, shape, 0)
}

/// Puts the layer of a set of values at the end of layers.
fn push_layer(
    alloc: Global,
    layers: &mut Layers,
    shape: &Shape,
    set: u128,
) -> Result<(), AllocError>
    ensures { OnOk result (layers.new ≡ layers.old ++ (opening_row shape.now.down shape.now.up (members set) ∷ []) ∷ []) }
{
    match layer(alloc, shape, set) {
        Ok(layer) => layers.push(layer),
        Err(refused) => Err(refused),
    }
}

/// The layer of a set of values: its one row.
fn layer(alloc: Global, shape: &Shape, set: u128) -> Result<List<Row>, AllocError>
    ensures { IfOk result (λ layer. layer ≡ opening_row shape.now.down shape.now.up (members set) ∷ []) }
{
    let row = row(alloc, shape, set)?;
    let mut layer = List::new(alloc);
    match layer.push(row) {
        Ok(()) => Ok(layer),
        Err(refused) => {
            drop(layer);
            Err(refused)
        }
    }
}

/// The row of a set of values.
fn row(alloc: Global, shape: &Shape, set: u128) -> Result<Row, AllocError>
    ensures { IfOk result (λ row. row ≡ opening_row shape.now.down shape.now.up (members set)) }
{
    let ((down, up), (from, entries)) = pair(
        pair(State::top(alloc, &shape.down), State::top(alloc, &shape.up)),
        pair(list_of(alloc, &[0]), live_entries(alloc, value_count(set))),
    )?;
    Ok(Row {
        down,
        up: Some(up),
        from,
        entries,
    })
}

/// So many Live entries, which name row 0.
fn live_entries(alloc: Global, count: u32) -> Result<List<Entry>, AllocError>
    ensures { IfOk result (λ entries. entries ≡ replicate count (Entry.Live 0)) }
{
    let mut entries = List::new(alloc);
    for _made in 0..count {
        if let Err(refused) = entries.push(Entry::Live(0)) {
            drop(entries);
            return Err(refused);
        }
    }
    Ok(entries)
}
