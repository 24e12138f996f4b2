//! Specifications: which texts are read and how they are printed, and which are refused and why.

use crate::texts::{MOST_BYTES, push_lines, repeat};
use hk_base::{Bytes, List};
use hk_parse::{BlockFault, SpecFault, print_spec, read_spec};
use hk_spec::Spec;
use std::alloc::{AllocError, Global};

/// Whether a specification is printed so.
fn is_printed(alloc: Global, spec: &Spec, text: &[u8]) -> Option<bool> {
    let mut printed = List::new(alloc);
    print_spec(spec, &mut printed).ok()?;
    Some(printed.as_slice() == text)
}

/// Whether a specification is read from a text and printed as another.
fn is_reprinted(alloc: Global, text: &[u8], spaced: &[u8]) -> Option<bool> {
    if text.len() > MOST_BYTES {
        return None;
    }
    let spec = read_spec(alloc, text).ok()?;
    let printed = is_printed(alloc, &spec, spaced);
    drop(spec);
    printed
}

/// The line and the fault for which a text is refused, where it is; want of memory has no line.
fn refusal(alloc: Global, text: &[u8]) -> Option<(u32, BlockFault)> {
    if text.len() > MOST_BYTES {
        return Some((0, BlockFault::Limit));
    }
    match read_spec(alloc, text) {
        Ok(spec) => {
            drop(spec);
            None
        }
        Err(SpecFault::Syntax(line)) => Some((line, BlockFault::Syntax)),
        Err(SpecFault::Name(line)) => Some((line, BlockFault::Name)),
        Err(SpecFault::Limit(line)) => Some((line, BlockFault::Limit)),
        Err(SpecFault::Memory) => Some((0, BlockFault::Memory)),
    }
}

/// A specification whose test is these pieces, each as often as is said beside it.
fn with_test(alloc: Global, pieces: &[(&str, usize)]) -> Result<Bytes, AllocError> {
    let mut text = List::new(alloc);
    text.push_all(b"spec deep ()\ntest ")?;
    push_pieces(&mut text, pieces)?;
    text.push_all(b"\nend\n")?;
    Ok(text)
}

/// Appends these pieces, each as often as is said beside it.
fn push_pieces(text: &mut Bytes, pieces: &[(&str, usize)]) -> Result<(), AllocError> {
    for (piece, count) in pieces {
        repeat(text, piece.as_bytes(), *count)?;
    }
    Ok(())
}

/// The line and the fault for which a specification is refused whose test is these pieces.
fn test_refusal(alloc: Global, pieces: &[(&str, usize)]) -> Option<(u32, BlockFault)> {
    let Ok(text) = with_test(alloc, pieces) else {
        return Some((0, BlockFault::Memory));
    };
    refusal(alloc, text.as_slice())
}

#[test]
fn specifications_are_printed_spaced(rt: HostRuntime) {
    let rows = [
        (
            "spec rise ()\ndown m Min 0\ntest ((i < 1) or (m < v))\nstep m v\nend\n",
            "spec rise ()\ndown m Min 0\ntest ( ( i < 1 ) or ( m < v ) )\nstep m v\nend\n",
        ),
        (
            "# few or many\nspec count(num most,set vals)\n\tdown c Interval 0..0\n\n\
             test ((c.lo + card(({v} & vals))) <= most)#now\n\
             step c (c.lo + card(({v}&vals))) (c.hi+1)\nend",
            "spec count ( num most , set vals )\ndown c Interval 0 .. 0\n\
             test ( ( c . lo + card ( ( { v } & vals ) ) ) <= most )\n\
             step c ( c . lo + card ( ( { v } & vals ) ) ) ( c . hi + 1 )\nend\n",
        ),
        (
            "spec odd (list k)\ndown o Max -5\nup s AllBits {1, 3}\n\
             test (((-5) < max(o, (k[i] * -2))) and (not (v notin s)))\n\
             step o (o-1)\nstep s ((s \\ {v})|{})\nend\n",
            "spec odd ( list k )\ndown o Max - 5\nup s AllBits { 1 , 3 }\n\
             test ( ( ( - 5 ) < max ( o , ( k [ i ] * - 2 ) ) ) and ( not ( v notin s ) ) )\n\
             step o ( o - 1 )\nstep s ( ( s \\ { v } ) | { } )\nend\n",
        ),
    ];
    for (text, spaced) in rows {
        let printed = is_reprinted(rt.alloc(), text.as_bytes(), spaced.as_bytes());
        assert_eq!(rt; printed, Some(true), "{text}");
    }
}

#[test]
fn bad_lines_are_told(rt: HostRuntime) {
    let rows = [
        ("", 1, BlockFault::Syntax),
        ("spec a ()\ntest true\n", 3, BlockFault::Syntax),
        ("spec a ()\ntest true $\nend\n", 2, BlockFault::Syntax),
        ("spec a ()\nend\n", 2, BlockFault::Syntax),
        (
            "spec a ()\ntest true\nend\n# no more\nend\n",
            5,
            BlockFault::Syntax,
        ),
        ("spec a ()\ndown m Min -0\n", 2, BlockFault::Syntax),
        ("spec a ()\ntest true\nstep m v\n", 3, BlockFault::Syntax),
        ("spec a ()\ntest (i < -0)\n", 2, BlockFault::Syntax),
        ("spec a ()\ndown s SomeBits {2, 1}\n", 2, BlockFault::Syntax),
        ("spec a ()\ntest (v in {2, 1})\n", 2, BlockFault::Syntax),
        ("spec a ()\ndown v Min 0\n", 2, BlockFault::Name),
        (
            "spec a ()\ndown m Min 0\ndown k Max 0\ntest true\nstep k v\n",
            5,
            BlockFault::Name,
        ),
        (
            "spec a ()\ndown m Min 0\nup k Max 0\ntest true\nstep m k\n",
            5,
            BlockFault::Name,
        ),
        ("spec a ()\ntest (v in {128})\n", 2, BlockFault::Limit),
    ];
    for (text, line, fault) in rows {
        assert_eq!(rt;
            refusal(rt.alloc(), text.as_bytes()),
            Some((line, fault)),
            "{text}"
        );
    }
}

#[test]
fn deep_conditions_are_told(rt: HostRuntime) {
    let syntax = Some((2, BlockFault::Syntax));
    let name = Some((2, BlockFault::Name));
    let limit = Some((2, BlockFault::Limit));
    let rows: [(&[(&str, usize)], Option<(u32, BlockFault)>); 12] = [
        (&[("true", 1), (" ", 1_048_549)], None),
        (&[("(not ", 31), ("true", 1), (")", 31)], None),
        (&[("(not ", 32), ("true", 1), (")", 32)], limit),
        (&[("(not ", 100_000), ("true", 1), (")", 100_000)], limit),
        (&[("(not ", 31), ("(x < 1)", 1), (")", 31)], name),
        (&[("(not ", 32), ("(x < 1)", 1), (")", 32)], name),
        (&[("(not ", 100_000), ("(x < 1)", 1), (")", 100_000)], name),
        (
            &[
                ("((not ", 1),
                ("(not ", 99_999),
                ("true", 1),
                (")", 100_000),
                (" and (x < 1))", 1),
            ],
            name,
        ),
        (&[("(not ", 100_000), ("true", 1), (")", 99_999)], syntax),
        (&[("(not ", 100_000), ("x", 1), (")", 100_000)], syntax),
        (&[("(", 100_000)], syntax),
        (&[("(", 100_000), ("x", 1)], syntax),
    ];
    for (pieces, told) in rows {
        let (piece, count) = pieces.first().copied().unwrap_or(("", 0));
        assert_eq!(rt; test_refusal(rt.alloc(), pieces), told, "{count} {piece}");
    }
}

/// Whether this is said of a fault.
fn is_said(alloc: Global, fault: SpecFault, text: &str) -> bool {
    match fault.to_string(alloc) {
        Ok(said) => said.as_str() == text,
        Err(_) => false,
    }
}

#[test]
fn faults_are_said_in_words(rt: HostRuntime) {
    let alloc = rt.alloc();
    let told = [
        is_said(
            alloc,
            SpecFault::Syntax(2),
            "line 2 is none that may stand there",
        ),
        is_said(
            alloc,
            SpecFault::Name(3),
            "a name of line 3 is taken or not known",
        ),
        is_said(alloc, SpecFault::Limit(4), "line 4 passes a limit"),
        is_said(alloc, SpecFault::Memory, "no memory for the specification"),
    ];
    assert_eq!(rt; told, [true; 4]);
}

/// Appends the first line of a specification with so many parameters after the first, and a name of 32
/// bytes.
fn push_header(text: &mut Bytes, more: u16) -> Result<(), AllocError> {
    text.push_all(b"spec a_name_with_as_many_bytes_as_fit (set first")?;
    push_lines(text, b", num p", b"", more)?;
    text.push_all(b")\n")
}

/// Appends so many properties of each side, a test, and the steps.
fn push_parts(text: &mut Bytes, down: u16, up: u16) -> Result<(), AllocError> {
    push_lines(text, b"down d", b" Min 0\n", down)?;
    push_lines(text, b"up u", b" Max 0\n", up)?;
    text.push_all(b"test true\n")?;
    push_lines(text, b"step d", b" v\n", down)?;
    push_lines(text, b"step u", b" v\n", up)?;
    text.push_all(b"end\n")
}

/// Appends a specification of these sizes: of its parameters after the first, and of the properties of
/// each side.
fn push_sized(text: &mut Bytes, sizes: (u16, u16, u16)) -> Result<(), AllocError> {
    push_header(text, sizes.0)?;
    push_parts(text, sizes.1, sizes.2)
}

/// The line and the fault for which it is refused, where it is.
fn sized_refusal(alloc: Global, sizes: (u16, u16, u16)) -> Option<(u32, BlockFault)> {
    let mut text = List::new(alloc);
    let told = match push_sized(&mut text, sizes) {
        Ok(()) => refusal(alloc, text.as_slice()),
        Err(_) => Some((0, BlockFault::Memory)),
    };
    drop(text);
    told
}

#[test]
fn the_greatest_specifications_are_read(rt: HostRuntime) {
    let rows = [
        ((0, 0, 0), None),
        ((15, 32, 32), None),
        ((16, 32, 32), Some((1, BlockFault::Limit))),
        ((15, 33, 32), Some((34, BlockFault::Limit))),
        ((15, 32, 33), Some((66, BlockFault::Limit))),
    ];
    for (sizes, told) in rows {
        assert_eq!(rt; sized_refusal(rt.alloc(), sizes), told, "{sizes:?}");
    }
}
