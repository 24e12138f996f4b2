//! What a trace is told of tables: their numbers, their layers and their rows, which are read from diagrams.

ghost use Rattle.std.specs.Prelude.{◌≡◌, ℕ, ◌+◌, ◌<◌, ◌≤◌, length, IfOk, OnOk, slice_index_or};
ghost use Rattle.hk_arena.specs.Diagrams.{IsRow, row_in, rows_of};
ghost use Rattle.hk_group.specs.Groups.{group_down_shape, group_up_shape};
ghost use Rattle.hk_table.specs.Traces.{Tells};
ghost use Rattle.hk_text.specs.Sets.{members_below};
ghost use Rattle.hk_prop.specs.Told.{layer_items, table_items, tables_items};
ghost use Rattle.hk_prop.specs.Works.{WorkView, tables_of};
ghost use Rattle.hk_prop.specs.inside.Revised.{HaveShapes, IsTellable};
ghost use Rattle.hk_prop.specs.Telling.{TellsAll};

use crate::work::Work;
use hk_arena::{Diagram, RowId};
use hk_base::{List, pair};
use hk_group::{Group, Problem};
use hk_kinds::{Shape1, State};
use hk_table::{Entry, Row, RowSet, Trace, TraceFault, TraceItem};
use std::alloc::{AllocError, Global};

/// The rows of a set, ascending.
fn rows_in(alloc: Global, set: &RowSet) -> Result<List<u16>, AllocError>
    ensures { IfOk result (λ rows. rows ≡ members_below set.now 256) }
{
    let mut rows = List::new(alloc);
    'rows: for row in 0..256u16 {
        if set.has(row) {
            rows.push(row)?;
        }
    }
    Ok(rows)
}

/// The rows that a row comes from, ascending.
fn from_of(alloc: Global, diagram: &Diagram, row: RowId) -> Result<List<u16>, AllocError>
    requires { IsRow diagram.now.table row }
    ensures { IfOk result (λ from. from ≡ (row_in diagram.now.table row).from) }
{
    rows_in(alloc, &diagram.from_rows(row))
}

/// The entries of a row.
fn entries_of(alloc: Global, diagram: &Diagram, row: RowId) -> Result<List<Entry>, AllocError>
    requires row { IsRow diagram.now.table row }
    requires layer { row.layer ≤ length diagram.now.shape.domains }
    ensures { IfOk result (λ entries. entries ≡ (row_in diagram.now.table row).entries) }
{
    diagram.fits();
    let mut entries = List::new(alloc);
    'entries: for at in 0..diagram.values(row.layer) {
        entries.push(diagram.entry(diagram.entry_id(row, at)))?;
    }
    Ok(entries)
}

/// The down state of a row.
fn down_of(
    alloc: Global,
    diagram: &Diagram,
    row: RowId,
    shape: &Shape1,
) -> Result<State, AllocError>
    requires row { IsRow diagram.now.table row }
    requires shape { shape.now ≡ diagram.now.shape.down }
    ensures { IfOk result (λ state. state ≡ (row_in diagram.now.table row).down) }
{
    let mut state = State::top(alloc, shape)?;
    diagram.down(row, &mut state);
    Ok(state)
}

/// The up state of a row, where it has one.
fn up_of(
    alloc: Global,
    diagram: &Diagram,
    row: RowId,
    shape: &Shape1,
) -> Result<Option<State>, AllocError>
    requires row { IsRow diagram.now.table row }
    requires shape { shape.now ≡ diagram.now.shape.up }
    ensures { IfOk result (λ state. state ≡ (row_in diagram.now.table row).up) }
{
    let mut state = State::top(alloc, shape)?;
    if diagram.up(row, &mut state) {
        return Ok(Some(state));
    }
    drop(state);
    Ok(None)
}

/// A row of a diagram.
fn row_of(
    alloc: Global,
    diagram: &Diagram,
    row: RowId,
    down: &Shape1,
    up: &Shape1,
) -> Result<Row, AllocError>
    requires row { IsRow diagram.now.table row }
    requires layer { row.layer ≤ length diagram.now.shape.domains }
    requires down { down.now ≡ diagram.now.shape.down }
    requires up { up.now ≡ diagram.now.shape.up }
    ensures { IfOk result (λ read. read ≡ row_in diagram.now.table row) }
{
    let ((down, up), (from, entries)) = pair(
        pair(
            down_of(alloc, diagram, row, down),
            up_of(alloc, diagram, row, up),
        ),
        pair(
            from_of(alloc, diagram, row),
            entries_of(alloc, diagram, row),
        ),
    )?;
    Ok(Row {
        down,
        up,
        from,
        entries,
    })
}

/// Tells a row.
fn tell_row<T: Trace>(
    alloc: Global,
    diagram: &Diagram,
    row: RowId,
    down: &Shape1,
    up: &Shape1,
    trace: &mut T,
) -> Result<(), TraceFault>
    requires row { IsRow diagram.now.table row }
    requires layer { row.layer ≤ length diagram.now.shape.domains }
    requires down { down.now ≡ diagram.now.shape.down }
    requires up { up.now ≡ diagram.now.shape.up }
    requires tellable { IsTellable diagram.now.table }
    requires whole { T.whole trace.old }
    ensures tells { Tells (T.view trace.old) (TraceItem.Row (row_in diagram.now.table row)) result (T.view trace.new) }
    ensures whole { OnOk result (T.whole trace.new) }
{
    diagram.fits();
    match row_of(alloc, diagram, row, down, up) {
        Ok(row) => {
            let told = trace.row(&row);
            drop(row);
            told
        }
        Err(_) => Err(TraceFault::Memory),
    }
}

/// Tells a layer and its rows.
fn tell_layer<T: Trace>(
    alloc: Global,
    diagram: &Diagram,
    layer: u16,
    down: &Shape1,
    up: &Shape1,
    trace: &mut T,
) -> Result<(), TraceFault>
    requires layer { layer ≤ length diagram.now.shape.domains }
    requires down { down.now ≡ diagram.now.shape.down }
    requires up { up.now ≡ diagram.now.shape.up }
    requires tellable { IsTellable diagram.now.table }
    requires whole { T.whole trace.old }
    ensures tells { TellsAll (T.view trace.old) (layer_items (rows_of diagram.now.table layer)) result (T.view trace.new) }
    ensures whole { OnOk result (T.whole trace.new) }
{
    diagram.fits();
    let count = diagram.rows(layer);
    trace.layer(count)?;
    'each: for at in 0..count {
        tell_row(alloc, diagram, diagram.row(layer, at), down, up, trace)?;
    }
    Ok(())
}

/// Tells the table of a group, which has a number from 1.
fn tell_table<T: Trace>(
    alloc: Global,
    diagram: &Diagram,
    group: &Group,
    number: u16,
    trace: &mut T,
) -> Result<(), TraceFault>
    requires down { diagram.now.shape.down ≡ group_down_shape group.now }
    requires up { diagram.now.shape.up ≡ group_up_shape group.now }
    requires layers { length diagram.now.shape.domains ≡ length group.now.vars }
    requires tellable { IsTellable diagram.now.table }
    requires whole { T.whole trace.old }
    ensures tells { TellsAll (T.view trace.old) (table_items number diagram.now.table) result (T.view trace.new) }
    ensures whole { OnOk result (T.whole trace.new) }
{
    diagram.fits();
    let (down, up) = group.shapes();
    let last = group.vars().len() as u16;
    trace.table(number)?;
    'layers: for layer in 0..last + 1 {
        tell_layer(alloc, diagram, layer, down, up, trace)?;
    }
    Ok(())
}

/// Tells the tables of all groups.
pub(crate) fn tell_tables<T: Trace>(
    alloc: Global,
    problem: &Problem,
    work: &[Work],
    trace: &mut T,
) -> Result<(), TraceFault>
    requires one_each { length work.now ≡ length problem.now.groups }
    requires shapes { HaveShapes problem.now work.now }
    requires tellable { (k : ℕ) (w : WorkView) → k < length work.now → IsTellable (slice_index_or work.now k w).diagram.table }
    requires whole { T.whole trace.old }
    ensures tells { TellsAll (T.view trace.old) (tables_items 1 (tables_of work.now)) result (T.view trace.new) }
    ensures whole { OnOk result (T.whole trace.new) }
{
    let groups = problem.groups();
    'tables: for at in 0..work.len() {
        let work = &work[at];
        tell_table(alloc, &work.diagram, &groups[at], at as u16 + 1, trace)?;
    }
    Ok(())
}
