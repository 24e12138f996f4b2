//! Prints the properties of a specification.
ghost use Rattle.std.specs.Prelude.{◌≡◌, ◌++◌, map, OnOk, OnErr};
ghost use Rattle.hk_base.specs.Lists.{AppendsFront};
ghost use Rattle.hk_print.specs.Printed.{init_pieces, kind_word, lines_text, property_line};
ghost use Rattle.hk_print.specs.Pieces.{line_text, piece, spaced};

use crate::words::{print_literal, print_number, print_word};
use hk_base::Bytes;
use hk_kinds::{Kind, Prop};
use hk_spec::PropDecl;
use std::alloc::AllocError;

/// Appends a line for each property, which begins with the word for their side.
pub fn print_properties(
    out: &mut Bytes,
    side: &[u8],
    properties: &[PropDecl],
) -> Result<(), AllocError>
    ensures ok { OnOk result (out.new ≡ out.old ++ lines_text (map (property_line side.now) properties.now)) }
    ensures err { OnErr result (AppendsFront out.old out.new (lines_text (map (property_line side.now) properties.now))) }
{
    for property in properties {
        print_property(out, side, property)?;
    }
    Ok(())
}

fn print_property(out: &mut Bytes, side: &[u8], property: &PropDecl) -> Result<(), AllocError>
    ensures ok { OnOk result (out.new ≡ out.old ++ line_text (property_line side.now property.now)) }
    ensures err { OnErr result (AppendsFront out.old out.new (line_text (property_line side.now property.now))) }
{
    out.push_all(side)?;
    print_word(out, property.name.as_slice())?;
    print_value(out, property)?;
    out.push_all(b"\n")
}

fn print_value(out: &mut Bytes, property: &PropDecl) -> Result<(), AllocError>
    ensures ok { OnOk result (out.new ≡ out.old ++ spaced (piece (kind_word property.now.kind) ++ init_pieces property.now.init)) }
    ensures err { OnErr result (AppendsFront out.old out.new (spaced (piece (kind_word property.now.kind) ++ init_pieces property.now.init))) }
{
    print_word(out, kind_word(property.kind))?;
    print_init(out, property.init)
}

fn print_init(out: &mut Bytes, init: Prop) -> Result<(), AllocError>
    ensures ok { OnOk result (out.new ≡ out.old ++ spaced (init_pieces init)) }
    ensures err { OnErr result (AppendsFront out.old out.new (spaced (init_pieces init))) }
{
    match init {
        Prop::Num(n) => print_number(out, n),
        Prop::Pair(low, high) => print_pair(out, low, high),
        Prop::Bits(set) => print_literal(out, set),
    }
}

fn print_pair(out: &mut Bytes, low: i64, high: i64) -> Result<(), AllocError>
    ensures ok { OnOk result (out.new ≡ out.old ++ spaced (init_pieces (Prop.Pair low high))) }
    ensures err { OnErr result (AppendsFront out.old out.new (spaced (init_pieces (Prop.Pair low high)))) }
{
    print_number(out, low)?;
    out.push_all(b" ..")?;
    print_number(out, high)
}

/// The word for a kind of properties.
fn kind_word(kind: Kind) -> &'static [u8]
    ensures { result.now ≡ kind_word kind }
{
    match kind {
        Kind::Min => b"Min",
        Kind::Max => b"Max",
        Kind::Interval => b"Interval",
        Kind::SomeBits => b"SomeBits",
        Kind::AllBits => b"AllBits",
    }
}
