//! Writes the rows of a layer of a diagram.
ghost use Rattle.std.specs.Prelude.{◌≡◌, ◌≤◌, ◌<◌, ◌+◌, ◌*◌, length, take, drop, OnOk};
ghost use Rattle.hk_arena.specs.Changes.{with_row};
ghost use Rattle.hk_arena.specs.Diagrams.{rows_of, values_of};
ghost use Rattle.hk_layers.specs.Flat.{AreShaped, AreShapedUps};
ghost use Rattle.hk_sweep.specs.inside.Written.{IsLayerWritten, made_row, rows_made};

use hk_arena::Diagram;
use hk_cells::Steps;
use hk_layers::{Front, Ups};
use hk_table::Entry;
use std::alloc::AllocError;
use std::sync::ledger::Ledger;

/// The entries of one row, of those of rows that have so many each.
fn row_entries(entries: &[Entry], at: usize, count: usize) -> &[Entry]
    requires { at * count + count ≤ length entries.now }
    ensures { result.now ≡ take count (drop (at * count) entries.now) }
{
    let first = at * count;
    &entries[first..first + count]
}

/// Makes a row of a layer that of the way down at the same place, with its up state and these entries. Where memory is
/// refused, the table is any.
fn write_row<L: Ledger>(
    diagram: &mut Diagram,
    layer: u16,
    at: u16,
    front: &Front,
    entries: &[Entry],
    ups: &Ups,
    steps: &mut Steps<L>,
) -> Result<(), AllocError>
    requires row { at < length (rows_of diagram.old.table layer) }
    requires half { at < length front.now.halves }
    requires downs { AreShaped diagram.old.shape.down front.now.halves }
    requires shapes { AreShapedUps diagram.old.shape.up ups.now.ups }
    requires up { at < length ups.now.ups }
    requires entries { length entries.now ≡ length (values_of diagram.old.shape layer) }
    ensures ok { OnOk result (diagram.new.table ≡ with_row (record { layer = layer; at = at }) (λ old. made_row front.now.halves ups.now.ups at entries.now) diagram.old.table) }
    ensures others { diagram.new ≡ record diagram.old { table = diagram.new.table; numbers = diagram.new.numbers } }
{
    let row = diagram.row(layer, at);
    let at = at as usize;
    diagram.set_row(
        row,
        &front.down(at),
        ups.at(at),
        front.from(at),
        entries,
        steps,
    )?;
    Ok(())
}

/// Makes the rows of a layer those of the way down, of which there are as many. Where memory is refused, the table is
/// any.
fn write_rows<L: Ledger>(
    diagram: &mut Diagram,
    layer: u16,
    front: &Front,
    entries: &[Entry],
    ups: &Ups,
    steps: &mut Steps<L>,
) -> Result<(), AllocError>
    requires layer { layer ≤ length diagram.old.shape.domains }
    requires rows { length (rows_of diagram.old.table layer) ≡ length front.now.halves }
    requires downs { AreShaped diagram.old.shape.down front.now.halves }
    requires shapes { AreShapedUps diagram.old.shape.up ups.now.ups }
    requires ups { length ups.now.ups ≡ length front.now.halves }
    requires entries { length entries.now ≡ length front.now.halves * length (values_of diagram.old.shape layer) }
    ensures ok { OnOk result (IsLayerWritten layer (rows_made (length (values_of diagram.old.shape layer)) front.now.halves ups.now.ups entries.now) diagram.old.table diagram.new.table) }
    ensures others { diagram.new ≡ record diagram.old { table = diagram.new.table; numbers = diagram.new.numbers } }
{
    let count = diagram.values(layer) as usize;
    for at in 0..diagram.rows(layer) {
        let row = row_entries(entries, at as usize, count);
        write_row(diagram, layer, at, front, row, ups, steps)?;
    }
    Ok(())
}

/// Makes a layer of a diagram the rows of the way down, with these up states and entries. Where memory is refused, its
/// table is any.
pub(crate) fn write_layer<L: Ledger>(
    diagram: &mut Diagram,
    layer: u16,
    front: &Front,
    entries: &[Entry],
    ups: &Ups,
    steps: &mut Steps<L>,
) -> Result<(), AllocError>
    requires layer { layer ≤ length diagram.old.shape.domains }
    requires few { length front.now.halves ≤ diagram.old.width }
    requires downs { AreShaped diagram.old.shape.down front.now.halves }
    requires shapes { AreShapedUps diagram.old.shape.up ups.now.ups }
    requires ups { length ups.now.ups ≡ length front.now.halves }
    requires entries { length entries.now ≡ length front.now.halves * length (values_of diagram.old.shape layer) }
    ensures ok { OnOk result (IsLayerWritten layer (rows_made (length (values_of diagram.old.shape layer)) front.now.halves ups.now.ups entries.now) diagram.old.table diagram.new.table) }
    ensures others { diagram.new ≡ record diagram.old { table = diagram.new.table; numbers = diagram.new.numbers } }
{
    diagram.fits();
    diagram.resize(layer, front.len() as u16, steps)?;
    write_rows(diagram, layer, front, entries, ups, steps)?;
    Ok(())
}
