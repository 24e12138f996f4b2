//! What the calls of a diagram make of its opening table, and what is read of it afterwards.

ghost use Rattle.std.specs.Prelude.{◌≡◌, ◌<◌, ◌≤◌, length, IfSome};
ghost use Rattle.hk_kinds.specs.Shapes.{HasShape};

use crate::changes::{Change, make_changes};
use crate::leading::supports;
use crate::readings::{are_entries_read, have_sets, is_table_read};
use crate::shapes::is_makeable;
use crate::written::{SUM_AND_COST, WrittenRow, shape_of};
use hk_arena::{Diagram, RowId};
use hk_cells::Steps;
use hk_kinds::{Kind, Prop, Shape1, State};
use hk_table::Entry::{self, Cut, Dead, Gone, Live};
use hk_table::Shape;
use std::alloc::Global;
use std::marker::Brand;
use std::sync::ledger::{Blank, Ledger};

/// The greatest number.
const GREATEST: i64 = 1_000_000_000_000;

/// The states of a sum and a cost, which cover all.
const TOPS: &[Prop] = &[Prop::Pair(-GREATEST, GREATEST), Prop::Num(-GREATEST)];

/// A row of the opening table, with these entries.
macro_rules! opening {
    ($($entries:tt)*) => {
        WrittenRow {
            down: TOPS,
            up: Some(TOPS),
            from: &[0],
            entries: &[$($entries)*],
        }
    };
}

/// The opening table's row of two values, and its row of the last layer.
const BOTH: WrittenRow = opening![Live(0), Live(0)];

const LAST: WrittenRow = opening![];

/// The states of another row.
const DOWN: &[Prop] = &[Prop::Pair(-3, 4), Prop::Num(5)];

const UP: &[Prop] = &[Prop::Pair(0, 0), Prop::Num(-7)];

/// A row with these states, that comes from row 1 alone, and one of the last layer without an up state.
const OTHER: WrittenRow = WrittenRow {
    down: DOWN,
    up: Some(UP),
    from: &[1],
    entries: &[Cut, Live(0)],
};

const OTHER_LAST: WrittenRow = WrittenRow {
    down: DOWN,
    up: None,
    from: &[0, 1],
    entries: &[],
};

/// Each kind of property, and states of these kinds.
const KINDS: &[Kind] = &[
    Kind::Min,
    Kind::Max,
    Kind::Interval,
    Kind::SomeBits,
    Kind::AllBits,
];

const ALL_TOPS: &[Prop] = &[
    Prop::Num(-GREATEST),
    Prop::Num(GREATEST),
    Prop::Pair(-GREATEST, GREATEST),
    Prop::Bits(u128::MAX),
    Prop::Bits(0),
];

const ALL_DOWN: &[Prop] = &[
    Prop::Num(GREATEST),
    Prop::Num(-1),
    Prop::Pair(1, 0),
    Prop::Bits(1 << 127 | 1),
    Prop::Bits(u128::MAX),
];

const ALL_UP: &[Prop] = &[
    Prop::Num(0),
    Prop::Num(-GREATEST),
    Prop::Pair(-GREATEST, -1),
    Prop::Bits(0),
    Prop::Bits(1 << 127 | 1 << 64),
];

/// The name of a row, by its layer and its place.
macro_rules! id {
    ($layer:expr, $at:expr) => {
        RowId {
            layer: $layer,
            at: $at,
        }
    };
}

/// The kinds of states each way, the sets of values and how many each has, and the width of a diagram; calls, and
/// the table and the values that it supports after them.
struct Case {
    kinds: &'static [Kind],
    sets: &'static [u128],
    counts: &'static [u16],
    width: u16,
    changes: &'static [Change],
    table: &'static [&'static [WrittenRow]],
    support: &'static [u128],
}

/// One of a sum and a cost of two variables that are 0 or 1, with a width of 2.
macro_rules! bits {
    ([$($changes:tt)*], [$($table:tt)*], $support:expr) => {
        Case {
            kinds: SUM_AND_COST,
            sets: &[0b11, 0b11],
            counts: &[2, 2],
            width: 2,
            changes: &[$($changes)*],
            table: &[$($table)*],
            support: &$support,
        }
    };
}

const CASES: &[Case] = &[
    bits!([], [&[BOTH], &[BOTH], &[LAST]], [0b11, 0b11]),
    bits!(
        [Change::Entry(id!(1, 0), 1, Dead(1))],
        [&[BOTH], &[opening![Live(0), Dead(1)]], &[LAST]],
        [0b11, 0b01]
    ),
    bits!(
        [
            Change::Entry(id!(0, 0), 0, Gone),
            Change::Entry(id!(0, 0), 1, Cut),
        ],
        [&[opening![Gone, Cut]], &[BOTH], &[LAST]],
        [0, 0]
    ),
    bits!(
        [Change::Down(id!(1, 0), DOWN)],
        [&[BOTH], &[WrittenRow { down: DOWN, ..BOTH }], &[LAST],],
        [0b11, 0b11]
    ),
    bits!(
        [
            Change::Up(id!(0, 0), None),
            Change::Up(id!(1, 0), None),
            Change::Up(id!(1, 0), Some(UP)),
            Change::Up(id!(2, 0), Some(UP)),
        ],
        [
            &[WrittenRow { up: None, ..BOTH }],
            &[WrittenRow {
                up: Some(UP),
                ..BOTH
            }],
            &[WrittenRow {
                up: Some(UP),
                ..LAST
            }],
        ],
        [0b11, 0b11]
    ),
    bits!(
        [
            Change::From(id!(0, 0), &[0, 1]),
            Change::From(id!(2, 0), &[1]),
        ],
        [
            &[WrittenRow {
                from: &[0, 1],
                ..BOTH
            }],
            &[BOTH],
            &[WrittenRow { from: &[1], ..LAST }],
        ],
        [0b11, 0b11]
    ),
    bits!(
        [
            Change::Row(id!(1, 0), OTHER),
            Change::Row(id!(2, 0), OTHER_LAST),
        ],
        [&[BOTH], &[OTHER], &[OTHER_LAST]],
        [0b11, 0b10]
    ),
    bits!(
        [
            Change::Rows(1, 2),
            Change::Row(id!(1, 1), OTHER),
            Change::Entry(id!(0, 0), 0, Live(1)),
            Change::Entry(id!(0, 0), 1, Dead(0)),
        ],
        [&[opening![Live(1), Dead(0)]], &[BOTH, OTHER], &[LAST]],
        [0b01, 0b10]
    ),
    bits!(
        [
            Change::Rows(2, 2),
            Change::Row(id!(2, 1), OTHER_LAST),
            Change::Entry(id!(1, 0), 0, Live(1)),
        ],
        [&[BOTH], &[opening![Live(1), Live(0)]], &[LAST, OTHER_LAST]],
        [0b11, 0b11]
    ),
    // A row that comes back has Gone entries alone.
    bits!(
        [
            Change::Resize(1, 2),
            Change::Row(id!(1, 1), OTHER),
            Change::Resize(1, 1),
            Change::Resize(1, 2),
            Change::Down(id!(1, 1), DOWN),
            Change::Up(id!(1, 1), Some(UP)),
            Change::From(id!(1, 1), &[1]),
        ],
        [
            &[BOTH],
            &[
                BOTH,
                WrittenRow {
                    entries: &[Gone, Gone],
                    ..OTHER
                }
            ],
            &[LAST],
        ],
        [0b11, 0b11]
    ),
    bits!(
        [
            Change::Entry(id!(0, 0), 0, Cut),
            Change::Entry(id!(0, 0), 1, Dead(0)),
            Change::Resize(1, 0),
        ],
        [&[opening![Cut, Dead(0)]], &[], &[LAST]],
        [0, 0]
    ),
    Case {
        kinds: KINDS,
        sets: &[1 << 127 | 0b101, 0b1000],
        counts: &[3, 1],
        width: 256,
        changes: &[
            Change::Entry(id!(0, 0), 0, Dead(255)),
            Change::Entry(id!(0, 0), 1, Cut),
            Change::Down(id!(1, 0), ALL_DOWN),
            Change::Up(id!(1, 0), Some(ALL_UP)),
            Change::From(id!(2, 0), &[0, 127, 128, 255]),
        ],
        table: &[
            &[WrittenRow {
                down: ALL_TOPS,
                up: Some(ALL_TOPS),
                from: &[0],
                entries: &[Dead(255), Cut, Live(0)],
            }],
            &[WrittenRow {
                down: ALL_DOWN,
                up: Some(ALL_UP),
                from: &[0],
                entries: &[Live(0)],
            }],
            &[WrittenRow {
                down: ALL_TOPS,
                up: Some(ALL_TOPS),
                from: &[0, 127, 128, 255],
                entries: &[],
            }],
        ],
        support: &[1 << 127, 0b1000],
    },
];

/// What is told of a diagram: whether its table is the one that is written, by rows and by the entries of whole
/// layers, whether it has the sets, and whether it supports the values.
fn told_of(
    alloc: Global,
    diagram: &Diagram,
    case: &Case,
    last: u16,
    down: &mut State,
    up: &mut State,
) -> Option<[bool; 4]>
    requires last { last ≡ length diagram.now.shape.domains }
    requires down { HasShape diagram.now.shape.down down.old }
    requires up { HasShape diagram.now.shape.up up.old }
{
    diagram.fits();
    let rows = is_table_read(diagram, case.table, last, down, up);
    let entries = are_entries_read(alloc, diagram, case.table, last)?;
    let sets = have_sets(diagram, case.sets, case.counts, last);
    let supported = supports(alloc, diagram, last, case.support)?;
    Some([rows, entries, sets, supported])
}

/// The same of a diagram after the calls, whose states are made in two that are lent.
fn after_changes<L: Ledger>(
    alloc: Global,
    diagram: &mut Diagram,
    shape: &Shape,
    case: &Case,
    last: u16,
    down: &mut State,
    up: &mut State,
    blank: Blank,
) -> Option<[bool; 4]>
    requires name { blank.name ≡ L.name }
    requires parts { blank.parts ≡ L.parts }
    requires some { 0 < blank.parts }
    requires shape { diagram.old.shape ≡ shape.now }
    requires last { last ≡ length diagram.old.shape.domains }
    requires width { diagram.old.width ≡ case.now.width }
    requires down { HasShape shape.now.down down.old }
    requires up { HasShape shape.now.up up.old }
{
    let mut steps = Steps::<L>::start(blank);
    make_changes(
        diagram,
        shape,
        last,
        case.width,
        case.changes,
        down,
        up,
        &mut steps,
    )?;
    told_of(alloc, diagram, case, last, down, up)
}

/// A state of a shape.
fn state_of(alloc: Global, shape: &Shape1) -> Option<State>
    ensures { IfSome result (HasShape shape.now) }
{
    match State::top(alloc, shape) {
        Ok(state) => Some(state),
        Err(_) => None,
    }
}

/// The same of a new diagram of a shape.
fn made_so(alloc: Global, shape: &Shape, case: &Case) -> Option<[bool; 4]> {
    if !is_makeable(shape, case.width) {
        return None;
    }
    let last = shape.domains.as_slice().len() as u16;
    let mut down = state_of(alloc, &shape.down)?;
    let mut up = state_of(alloc, &shape.up)?;
    let mut diagram = Diagram::make(alloc, shape, case.width).ok()?;
    after_changes::<Brand>(
        alloc,
        &mut diagram,
        shape,
        case,
        last,
        &mut down,
        &mut up,
        Blank::new(1),
    )
}

/// The same of a new diagram of a case's shape.
fn answers(alloc: Global, case: &Case) -> Option<[bool; 4]> {
    let shape = shape_of(alloc, case.kinds, case.kinds, case.sets).ok()?;
    let told = made_so(alloc, &shape, case);
    drop(shape);
    told
}

#[test]
fn calls_change_what_they_name(rt: HostRuntime) {
    for at in 0..CASES.len() {
        assert_eq!(rt; answers(rt.alloc(), &CASES[at]), Some([true; 4]), "{at}");
    }
}
