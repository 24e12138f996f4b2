//! The opening table, written into a diagram without rows.
ghost use Rattle.std.specs.Prelude.{◌≡◌, ◌+◌, ◌<◌, ◌≤◌, [], length, IfOk, OnOk};
ghost use Rattle.hk_kinds.specs.Shapes.{HasShape};
ghost use Rattle.hk_kinds.specs.Tops.{top_state};
ghost use Rattle.hk_table.specs.Opening.{opening_table};
ghost use Rattle.hk_arena.specs.Changes.{with_row};
ghost use Rattle.hk_arena.specs.Diagrams.{IsRow, row_in, values_of};
ghost use Rattle.hk_arena.specs.inside.Openings.{IsOpening, live_row, opened_row};

use crate::diagram::Diagram;
use crate::ids::{EntryId, RowId};
use hk_base::pair;
use hk_cells::Steps;
use hk_kinds::State;
use hk_table::{Entry, Shape};
use std::alloc::{AllocError, Global};
use std::marker::Brand;
use std::sync::ledger::{Blank, Ledger};

/// A diagram without rows, with those of the opening table.
pub(crate) fn opened(
    alloc: Global,
    shape: &Shape,
    mut diagram: Diagram,
) -> Result<Diagram, AllocError>
    requires shape { diagram.shape ≡ shape.now }
    requires opening { IsOpening 0 diagram }
    ensures table { IfOk result (λ opened. opened.table ≡ opening_table shape.now) }
    ensures others { IfOk result (λ opened. opened ≡ record diagram { table = opened.table }) }
{
    match open_uncounted(alloc, shape, &mut diagram) {
        Ok(()) => Ok(diagram),
        Err(refused) => {
            drop(diagram);
            Err(refused)
        }
    }
}

/// Opens all layers, and keeps no count of the steps.
fn open_uncounted(alloc: Global, shape: &Shape, diagram: &mut Diagram) -> Result<(), AllocError>
    requires shape { diagram.old.shape ≡ shape.now }
    requires opening { IsOpening 0 diagram.old }
    ensures table { OnOk result (diagram.new.table ≡ opening_table shape.now) }
    ensures others { diagram.new ≡ record diagram.old { table = diagram.new.table } }
{
    let (down, up) = pair(State::top(alloc, &shape.down), State::top(alloc, &shape.up))?;
    let result = open_counted::<Brand>(diagram, &down, &up, Blank::new(1));
    drop((down, up));
    result
}

fn open_counted<L: Ledger>(
    diagram: &mut Diagram,
    down: &State,
    up: &State,
    blank: Blank,
) -> Result<(), AllocError>
    requires name { blank.name ≡ L.name }
    requires parts { blank.parts ≡ L.parts }
    requires some { 0 < blank.parts }
    requires opening { IsOpening 0 diagram.old }
    requires down { down.now ≡ top_state diagram.old.shape.down }
    requires up { up.now ≡ top_state diagram.old.shape.up }
    ensures table { OnOk result (diagram.new.table ≡ opening_table diagram.old.shape) }
    ensures others { diagram.new ≡ record diagram.old { table = diagram.new.table } }
{
    let mut steps = Steps::<L>::start(blank);
    open_layers(diagram, down, up, &mut steps)
}

/// Gives each layer the row of the opening table.
fn open_layers<L: Ledger>(
    diagram: &mut Diagram,
    down: &State,
    up: &State,
    steps: &mut Steps<L>,
) -> Result<(), AllocError>
    requires opening { IsOpening 0 diagram.old }
    requires down { down.now ≡ top_state diagram.old.shape.down }
    requires up { up.now ≡ top_state diagram.old.shape.up }
    ensures table { OnOk result (diagram.new.table ≡ opening_table diagram.old.shape) }
    ensures others { diagram.new ≡ record diagram.old { table = diagram.new.table } }
{
    for layer in 0..diagram.layers() {
        open_layer(diagram, layer, down, up, steps)?;
    }
    Ok(())
}

/// Gives a layer without rows the row of the opening table.
fn open_layer<L: Ledger>(
    diagram: &mut Diagram,
    layer: u16,
    down: &State,
    up: &State,
    steps: &mut Steps<L>,
) -> Result<(), AllocError>
    requires layer { layer ≤ length diagram.old.shape.domains }
    requires opening { IsOpening layer diagram.old }
    requires down { down.now ≡ top_state diagram.old.shape.down }
    requires up { up.now ≡ top_state diagram.old.shape.up }
    ensures opening { OnOk result (IsOpening (layer + 1) diagram.new) }
    ensures others { diagram.new ≡ record diagram.old { table = diagram.new.table } }
{
    diagram.set_rows(layer, 1, steps)?;
    let row = RowId { layer, at: 0 };
    open_row(diagram, row, down, up, steps)?;
    open_entries(diagram, row, steps)?;
    Ok(())
}

/// Gives a row its states, and row 0 as the one that it comes from.
fn open_row<L: Ledger>(
    diagram: &mut Diagram,
    row: RowId,
    down: &State,
    up: &State,
    steps: &mut Steps<L>,
) -> Result<(), AllocError>
    requires row { IsRow diagram.old.table row }
    requires width { 0 < diagram.old.width }
    requires down { HasShape diagram.old.shape.down down.now }
    requires up { HasShape diagram.old.shape.up up.now }
    requires closed { diagram.old.numbers ≡ [] }
    ensures table { OnOk result (diagram.new.table ≡ with_row row (opened_row down.now up.now) diagram.old.table) }
    ensures others { diagram.new ≡ record diagram.old { table = diagram.new.table } }
{
    diagram.set_down(row, down, steps)?;
    diagram.set_up(row, Some(up), steps)?;
    diagram.set_from(row, &[0], steps)?;
    Ok(())
}

/// Makes all entries of a row Live ones that name row 0.
fn open_entries<L: Ledger>(
    diagram: &mut Diagram,
    row: RowId,
    steps: &mut Steps<L>,
) -> Result<(), AllocError>
    requires row { IsRow diagram.old.table row }
    requires layer { row.layer ≤ length diagram.old.shape.domains }
    requires long { length (row_in diagram.old.table row).entries ≡ length (values_of diagram.old.shape row.layer) }
    requires closed { diagram.old.numbers ≡ [] }
    ensures table { OnOk result (diagram.new.table ≡ with_row row (live_row (length (values_of diagram.old.shape row.layer))) diagram.old.table) }
    ensures others { diagram.new ≡ record diagram.old { table = diagram.new.table } }
{
    for at in 0..diagram.values(row.layer) {
        diagram.set_entry(EntryId { row, at }, Entry::Live(0), steps)?;
    }
    Ok(())
}
