//! Traces: what they hold after they were told each kind of item.

use crate::written::{WrittenRow, is_row, row_of};
use hk_kinds::Prop;
use hk_table::{Entry, ListTrace, NullTrace, Row, Trace, TraceFault, TraceItem};
use std::alloc::Global;

/// An item, as a test writes it out.
#[derive(Clone, Copy)]
enum WrittenItem {
    Pass,
    Table(u16),
    Layer(u16),
    Row(WrittenRow),
    Branch(u16, u8),
    Fail,
    Sol(&'static [u8]),
    OpenLeaf,
}

/// A row of a group of a sum and a cost.
const ROW: WrittenRow = WrittenRow {
    down: &[Prop::Pair(0, 0), Prop::Num(0)],
    up: Some(&[Prop::Pair(1, 1), Prop::Num(1)]),
    from: &[0],
    entries: &[Entry::Dead(0), Entry::Live(1)],
};

/// What the traces are told.
const ITEMS: [WrittenItem; 8] = [
    WrittenItem::Pass,
    WrittenItem::Table(1),
    WrittenItem::Layer(2),
    WrittenItem::Row(ROW),
    WrittenItem::Branch(3, 127),
    WrittenItem::Fail,
    WrittenItem::Sol(&[0, 1]),
    WrittenItem::OpenLeaf,
];

/// Tells a trace these items.
fn tell_list(trace: &mut ListTrace, row: &Row) -> Result<(), TraceFault> {
    trace.pass()?;
    trace.table(1)?;
    trace.layer(2)?;
    trace.row(row)?;
    trace.branch(3, 127)?;
    trace.failed()?;
    trace.solution(&[0, 1])?;
    trace.unentered()
}

/// Tells the trace that keeps nothing these items.
fn tell_nobody(trace: &mut NullTrace, row: &Row) -> Result<(), TraceFault> {
    trace.pass()?;
    trace.table(1)?;
    trace.layer(2)?;
    trace.row(row)?;
    trace.branch(3, 127)?;
    trace.failed()?;
    trace.solution(&[0, 1])?;
    trace.unentered()
}

/// Whether an item is the one that is written so.
fn is_item(item: &TraceItem, written: &WrittenItem) -> bool {
    match (item, written) {
        (TraceItem::Pass, WrittenItem::Pass)
        | (TraceItem::Fail, WrittenItem::Fail)
        | (TraceItem::OpenLeaf, WrittenItem::OpenLeaf) => true,
        (TraceItem::Table(group), WrittenItem::Table(told)) => *group == *told,
        (TraceItem::Layer(rows), WrittenItem::Layer(told)) => *rows == *told,
        (TraceItem::Row(row), WrittenItem::Row(told)) => is_row(row, told),
        (TraceItem::Branch(var, value), WrittenItem::Branch(told, at)) => {
            *var == *told && *value == *at
        }
        (TraceItem::Sol(values), WrittenItem::Sol(told)) => values.as_slice() == *told,
        _ => false,
    }
}

/// Whether these are the items that are written so, in their order.
fn are_items(items: &[TraceItem], written: &[WrittenItem]) -> bool {
    if items.len() != written.len() {
        return false;
    }
    for at in 0..items.len() {
        if !is_item(&items[at], &written[at]) {
            return false;
        }
    }
    true
}

/// Whether a new trace holds nothing, and these items once it was told them.
fn holds(alloc: Global, row: &Row, written: &[WrittenItem]) -> bool {
    let mut trace = ListTrace::new(alloc);
    let empty = trace.items().is_empty();
    let told = tell_list(&mut trace, row).is_ok();
    let held = are_items(trace.items(), written);
    drop(trace);
    empty && told && held
}

/// Whether the one trace holds the items that it was told, and the other answers Ok to each.
fn told(alloc: Global) -> Option<(bool, bool)> {
    let row = row_of(alloc, &ROW).ok()?;
    let held = holds(alloc, &row, &ITEMS);
    let quiet = tell_nobody(&mut NullTrace, &row).is_ok();
    drop(row);
    Some((held, quiet))
}

#[test]
fn traces_are_told_each_item(rt: HostRuntime) {
    assert_eq!(rt; told(rt.alloc()), Some((true, true)));
}
