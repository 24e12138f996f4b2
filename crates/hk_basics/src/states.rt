//! States: the top state of every kind, of no kind and of many.

use hk_kinds::{Kind, Prop, Shape1, State};
use std::alloc::{AllocError, Global};
use std::test::Fail;

/// Appends the kinds to a shape.
fn push_kinds(shape: &mut Shape1, kinds: &[Kind]) -> Result<(), AllocError> {
    for kind in kinds {
        shape.push(*kind)?;
    }
    Ok(())
}

/// The top state of a shape, by a copy of the shape and a copy of the state.
fn copied_top(alloc: Global, shape: &Shape1) -> Result<State, AllocError> {
    State::top(alloc, &shape.copy()?)?.copy()
}

/// Whether these are the properties of the top state of a shape.
fn has_top(alloc: Global, shape: &Shape1, expected: &[Prop]) -> Result<bool, AllocError> {
    let top = copied_top(alloc, shape)?;
    Ok(top.as_slice() == expected)
}

/// Whether these are the properties of the top state of the kinds, which are appended to the shape.
fn has_top_with(
    alloc: Global,
    shape: &mut Shape1,
    kinds: &[Kind],
    expected: &[Prop],
) -> Result<bool, AllocError> {
    push_kinds(shape, kinds)?;
    has_top(alloc, shape, expected)
}

/// Whether these are the properties of the top state of the kinds.
fn is_top(alloc: Global, kinds: &[Kind], expected: &[Prop]) -> Result<bool, AllocError> {
    let mut shape = Shape1::new(alloc);
    has_top_with(alloc, &mut shape, kinds, expected)
}

#[test]
fn tops_of_kinds(rt: HostRuntime) -> Result<(), Fail> {
    let kinds = [
        Kind::Min,
        Kind::Max,
        Kind::Interval,
        Kind::SomeBits,
        Kind::AllBits,
    ];
    let tops = [
        Prop::Num(-1_000_000_000_000),
        Prop::Num(1_000_000_000_000),
        Prop::Pair(-1_000_000_000_000, 1_000_000_000_000),
        Prop::Bits(0xffff_ffff_ffff_ffff_ffff_ffff_ffff_ffff),
        Prop::Bits(0),
    ];
    let rows = [
        ([].as_slice(), [].as_slice()),
        (kinds.as_slice(), tops.as_slice()),
        (
            [Kind::AllBits; 256].as_slice(),
            [Prop::Bits(0); 256].as_slice(),
        ),
    ];
    for (kinds, expected) in rows {
        assert!(rt; is_top(rt.alloc(), kinds, expected)?);
    }
    Ok(())
}
