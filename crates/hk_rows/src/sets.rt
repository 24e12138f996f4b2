//! Sets of values, one value after another; and sets of rows.

use hk_table::{RowSet, split_least, value_count};

/// The least value of a set and the set without it, where it has one.
fn split(set: u128) -> Option<(u8, u128)> {
    if value_count(set) == 0 {
        return None;
    }
    Some(split_least(set))
}

#[test]
fn values_are_counted_and_split(rt: HostRuntime) {
    let rows = [
        (0, 0, None),
        (0b1, 1, Some((0, 0))),
        (0b1011_0100, 4, Some((2, 0b1011_0000))),
        (1 << 127, 1, Some((127, 0))),
        (u128::MAX, 128, Some((0, u128::MAX - 1))),
    ];
    for (set, count, least) in rows {
        assert_eq!(rt; (value_count(set), split(set)), (count, least), "{set}");
    }
}

/// Which of these rows a set has, once it was given others.
fn had(given: &[u8], asked: [u8; 6]) -> [bool; 6] {
    let mut set = RowSet::empty();
    for row in given {
        set.insert(u16::from(*row));
    }
    asked.map(|row| set.has(u16::from(row)))
}

#[test]
fn rows_are_taken_in(rt: HostRuntime) {
    let rows: [(&[u8], [bool; 6]); 4] = [
        (&[], [false; 6]),
        (&[0, 128], [true, false, false, true, false, false]),
        (&[127, 255, 127], [false, false, true, false, false, true]),
        (&[1, 129], [false, true, false, false, true, false]),
    ];
    for (given, answers) in rows {
        assert_eq!(rt;
            had(given, [0, 1, 127, 128, 129, 255]),
            answers,
            "{given:?}"
        );
    }
}
