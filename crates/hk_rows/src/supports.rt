//! What tables support: the values at which rows that Live entries reach have Live entries.

ghost use Rattle.hk_table.specs.Supporting.{IsSupportable};

use crate::supportable::is_supportable;
use crate::written::{SUM_AND_COST, WrittenRow, shape_of, table_of};
use hk_base::pair;
use hk_table::Entry::{Cut, Dead, Gone, Live};
use hk_table::{Shape, Table};
use std::alloc::Global;

/// A row with these entries, and with nothing else that matters.
macro_rules! row {
    ($($entries:tt)*) => {
        WrittenRow {
            down: &[],
            up: None,
            from: &[0],
            entries: &[$($entries)*],
        }
    };
}

/// A row of the last layer.
const LAST: WrittenRow = row![];

/// Sets of values, a table for them, and the values that it supports, for each set.
type Case = (
    &'static [u128],
    &'static [&'static [WrittenRow]],
    &'static [u128],
);

/// The sets of two variables that are 0 or 1.
const BITS: &[u128] = &[0b11, 0b11];

/// Tables of a group of a sum and a cost, as a search for x and y with x + y = 1 and least x + y
/// makes them: at its root, in its first node and in its second.
const SEARCHED: &[Case] = &[
    (
        BITS,
        &[
            &[row![Live(0), Live(1)]],
            &[row![Dead(0), Live(1)], row![Live(1), Dead(2)]],
            &[LAST, LAST, LAST],
        ],
        &[0b11, 0b11],
    ),
    (
        BITS,
        &[&[row![Live(0), Gone]], &[row![Gone, Live(0)]], &[LAST]],
        &[0b01, 0b10],
    ),
    (
        BITS,
        &[&[row![Gone, Dead(0)]], &[row![Dead(0), Gone]], &[LAST]],
        &[0, 0],
    ),
];

/// The values 0, 2, 5, 7 and 9; 1, 3, 4 and 127; 0, 1, 2 and 126.
const SETS: &[u128] = &[0b10_1010_0101, 1 << 127 | 0b1_1010, 1 << 126 | 0b111];

/// Tables with entries and rows that support nothing, in each layer.
const LOSSY: &[Case] = &[
    // Row 1 of the first layer isn't reached, row 0 of the second and rows 0 and 1 of the third are
    // reached from such a row or by a Dead entry alone.
    (
        SETS,
        &[
            &[row![Live(1), Dead(0), Cut, Gone, Live(2)], row![Live(0); 5]],
            &[
                row![Live(0); 4],
                row![Dead(0), Live(2), Gone, Cut],
                row![Cut, Gone, Dead(1), Live(2)],
            ],
            &[
                row![Live(0); 4],
                row![Live(0); 4],
                row![Gone, Live(0), Dead(0), Cut],
            ],
            &[LAST],
        ],
        &[1 << 9 | 1, 1 << 127 | 1 << 3, 1 << 1],
    ),
    // No row, and a row without a Live entry.
    (BITS, &[&[], &[row![Live(0); 2]], &[LAST]], &[0, 0]),
    (
        BITS,
        &[&[row![Cut, Gone]], &[row![Live(0); 2]], &[LAST]],
        &[0, 0],
    ),
    // A row supports its values also where no path goes on from it.
    (
        BITS,
        &[&[row![Gone, Live(0)]], &[row![Cut, Gone]], &[]],
        &[0b10, 0],
    ),
];

/// What a table that can be asked supports, in places that held other values.
fn supported(alloc: Global, table: &Table, shape: &Shape) -> Option<Vec<u128>>
    requires { IsSupportable shape.now table.now }
{
    let mut out = Vec::new(alloc);
    out.resize(shape.domains.as_slice().len(), u128::MAX).ok()?;
    table.support_into(shape, out.as_mut_slice());
    Some(out)
}

/// Whether a table can be asked, and supports these values.
fn supports(alloc: Global, table: &Table, shape: &Shape, values: &[u128]) -> Option<bool> {
    if !is_supportable(table, shape) {
        return None;
    }
    let out = supported(alloc, table, shape)?;
    Some(out.as_slice() == values)
}

/// The same of a table that is written out, for these sets.
fn supports_so(
    alloc: Global,
    sets: &[u128],
    written: &[&[WrittenRow]],
    values: &[u128],
) -> Option<bool> {
    let (table, shape) = pair(table_of(alloc, written), shape_of(alloc, &[], &[], sets)).ok()?;
    let told = supports(alloc, &table, &shape, values);
    drop(table);
    drop(shape);
    told
}

/// The first of these cases of which something else is told.
fn other_case(alloc: Global, cases: &[Case]) -> Option<usize> {
    for at in 0..cases.len() {
        let (sets, written, values) = cases[at];
        if supports_so(alloc, sets, written, values) != Some(true) {
            return Some(at);
        }
    }
    None
}

#[test]
fn reached_rows_support_their_live_entries(rt: HostRuntime) {
    for cases in [SEARCHED, LOSSY] {
        assert_eq!(rt; other_case(rt.alloc(), cases), None);
    }
}

#[test]
fn the_last_of_256_rows_is_reached(rt: HostRuntime) {
    let mut rows = [row![Live(0), Gone]; 256];
    rows[255] = row![Gone, Live(0)];
    let first = [row![Live(255), Gone]];
    let told = supports_so(rt.alloc(), BITS, &[&first, &rows, &[LAST]], &[0b01, 0b10]);
    assert_eq!(rt; told, Some(true));
}

/// Whether the opening table of a shape supports these values.
fn opening_supports(alloc: Global, shape: &Shape, values: &[u128]) -> Option<bool> {
    let table = Table::opening(alloc, shape).ok()?;
    let told = supports(alloc, &table, shape, values);
    drop(table);
    told
}

/// The same of the shape of these sets, for the states of a sum and a cost.
fn opening_supports_so(alloc: Global, sets: &[u128], values: &[u128]) -> Option<bool> {
    let shape = shape_of(alloc, SUM_AND_COST, SUM_AND_COST, sets).ok()?;
    let told = opening_supports(alloc, &shape, values);
    drop(shape);
    told
}

#[test]
fn opening_tables_support_all(rt: HostRuntime) {
    let rows: [(&[u128], &[u128]); 4] = [
        (&[], &[]),
        (BITS, BITS),
        (
            &[u128::MAX, 1 << 127, 0b1010],
            &[u128::MAX, 1 << 127, 0b1010],
        ),
        // No path goes through a layer without values.
        (&[0b11, 0, 0b11], &[0b11, 0, 0]),
    ];
    for (sets, values) in rows {
        let told = opening_supports_so(rt.alloc(), sets, values);
        assert_eq!(rt; told, Some(true), "{sets:?}");
    }
}
