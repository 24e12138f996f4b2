//! Copies of rows and of tables: they are equal, and are let go apart from what they copy.

use crate::written::{WrittenRow, is_row, is_table, row_of, table_of};
use hk_kinds::Prop;
use hk_table::{Entry, Row, Table};
use std::alloc::Global;

/// A row that comes from two, with a state each way and an entry of each kind.
const BOTH_WAYS: WrittenRow = WrittenRow {
    down: &[Prop::Pair(0, 2), Prop::Num(-7)],
    up: Some(&[Prop::Bits(u128::MAX)]),
    from: &[0, 3, 255],
    entries: &[Entry::Gone, Entry::Cut, Entry::Dead(1), Entry::Live(255)],
};

/// One without an up state, whose down state has more properties than fit without memory.
const ONE_WAY: WrittenRow = WrittenRow {
    down: &[
        Prop::Num(1),
        Prop::Num(2),
        Prop::Num(3),
        Prop::Bits(4),
        Prop::Pair(5, 6),
    ],
    up: None,
    from: &[2],
    entries: &[],
};

/// One with nothing in it but an up state of no property.
const BARE: WrittenRow = WrittenRow {
    down: &[],
    up: Some(&[]),
    from: &[],
    entries: &[],
};

/// Whether the copy of a row is written so, and the row still is.
fn copies_row(alloc: Global, row: &Row, written: &WrittenRow) -> Option<bool> {
    let copy = row.copy(alloc).ok()?;
    let told = is_row(&copy, written);
    drop(copy);
    Some(told && is_row(row, written))
}

/// The same of the row that is written so.
fn is_row_copied(alloc: Global, written: &WrittenRow) -> Option<bool> {
    let row = row_of(alloc, written).ok()?;
    let told = copies_row(alloc, &row, written);
    drop(row);
    told
}

#[test]
fn rows_are_copied(rt: HostRuntime) {
    for row in [BOTH_WAYS, ONE_WAY, BARE] {
        assert_eq!(rt;
            is_row_copied(rt.alloc(), &row),
            Some(true),
            "{:?}",
            row.from
        );
    }
}

/// Whether the copy of a table is written so, and the table still is.
fn copies_table(alloc: Global, table: &Table, written: &[&[WrittenRow]]) -> Option<bool> {
    let copy = table.copy(alloc).ok()?;
    let told = is_table(&copy, written);
    drop(copy);
    Some(told && is_table(table, written))
}

/// The same of the table that is written so.
fn is_table_copied(alloc: Global, written: &[&[WrittenRow]]) -> Option<bool> {
    let table = table_of(alloc, written).ok()?;
    let told = copies_table(alloc, &table, written);
    drop(table);
    told
}

/// Tables of no layer, of a layer without a row, and of several.
const TABLES: &[&[&[WrittenRow]]] = &[
    &[],
    &[&[]],
    &[&[BOTH_WAYS]],
    &[&[ONE_WAY, BARE], &[], &[BARE, BOTH_WAYS, ONE_WAY]],
];

#[test]
fn tables_are_copied(rt: HostRuntime) {
    for table in TABLES {
        assert_eq!(rt;
            is_table_copied(rt.alloc(), *table),
            Some(true),
            "{}",
            table.len()
        );
    }
}
