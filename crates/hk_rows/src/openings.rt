//! Opening tables: one row a layer, whose states cover all and whose entries are all Live.

use crate::written::{SUM_AND_COST, WrittenRow, is_table, shape_of};
use hk_kinds::{Kind, Prop};
use hk_table::{Entry, Shape, Table};
use std::alloc::Global;

/// The greatest number.
const GREATEST: i64 = 1_000_000_000_000;

/// The states of a sum and a cost, which cover all.
const TOPS: &[Prop] = &[Prop::Pair(-GREATEST, GREATEST), Prop::Num(-GREATEST)];

/// The row of two values where a group has a sum and a cost.
const TWO_VALUES: WrittenRow = WrittenRow {
    down: TOPS,
    up: Some(TOPS),
    from: &[0],
    entries: &[Entry::Live(0), Entry::Live(0)],
};

/// Its row of the last layer.
const LAST: WrittenRow = WrittenRow {
    entries: &[],
    ..TWO_VALUES
};

/// The row of three values where a group has a property of each kind, and none on the way up.
const EACH_KIND: WrittenRow = WrittenRow {
    down: &[
        Prop::Num(-GREATEST),
        Prop::Num(GREATEST),
        Prop::Pair(-GREATEST, GREATEST),
        Prop::Bits(u128::MAX),
        Prop::Bits(0),
    ],
    up: Some(&[]),
    from: &[0],
    entries: &[Entry::Live(0), Entry::Live(0), Entry::Live(0)],
};

/// Its row of the last layer.
const EACH_LAST: WrittenRow = WrittenRow {
    entries: &[],
    ..EACH_KIND
};

/// Each kind of property.
const KINDS: &[Kind] = &[
    Kind::Min,
    Kind::Max,
    Kind::Interval,
    Kind::SomeBits,
    Kind::AllBits,
];

/// The kinds of states down and up, the sets of values, and the opening table for them.
type Case = (
    &'static [Kind],
    &'static [Kind],
    &'static [u128],
    &'static [&'static [WrittenRow]],
);

const CASES: &[Case] = &[
    (
        SUM_AND_COST,
        SUM_AND_COST,
        &[0b11, 0b11],
        &[&[TWO_VALUES], &[TWO_VALUES], &[LAST]],
    ),
    (SUM_AND_COST, SUM_AND_COST, &[], &[&[LAST]]),
    (
        KINDS,
        &[],
        &[1 << 127 | 0b101],
        &[&[EACH_KIND], &[EACH_LAST]],
    ),
];

/// Whether the opening table of a shape is written so.
fn opens(alloc: Global, shape: &Shape, written: &[&[WrittenRow]]) -> Option<bool> {
    let table = Table::opening(alloc, shape).ok()?;
    let told = is_table(&table, written);
    drop(table);
    Some(told)
}

/// The same of the shape of these kinds and sets.
fn opens_so(
    alloc: Global,
    down: &[Kind],
    up: &[Kind],
    sets: &[u128],
    written: &[&[WrittenRow]],
) -> Option<bool> {
    let shape = shape_of(alloc, down, up, sets).ok()?;
    let told = opens(alloc, &shape, written);
    drop(shape);
    told
}

#[test]
fn opening_tables_rule_nothing_out(rt: HostRuntime) {
    for (down, up, sets, written) in CASES {
        let told = opens_so(rt.alloc(), *down, *up, *sets, *written);
        assert_eq!(rt; told, Some(true), "{sets:?}");
    }
}
