//! Prints set expressions, each operation in parentheses of its own.
ghost use Rattle.std.specs.Prelude.{◌≡◌, ◌++◌, codes, OnOk, OnErr};
ghost use Rattle.hk_base.specs.Lists.{AppendsFront};
ghost use Rattle.hk_print.specs.Expressions.{naming_of, set_pieces};
ghost use Rattle.hk_print.specs.Pieces.{around, around_two, spaced};

use crate::names::{param_name, property_name};
use crate::words::{print_literal, print_word};
use hk_base::Bytes;
use hk_spec::{SetExpr, Spec};
use sqlite_items::Boxed;
use std::alloc::AllocError;

/// Appends a set expression.
#[cycle(print_set)]
pub fn print_set(out: &mut Bytes, spec: &Spec, e: &SetExpr) -> Result<(), AllocError>
    ensures ok { OnOk result (out.new ≡ out.old ++ spaced (set_pieces (naming_of spec.now) e.now)) }
    ensures err { OnErr result (AppendsFront out.old out.new (spaced (set_pieces (naming_of spec.now) e.now))) }
{
    match e {
        SetExpr::Lit(set) => print_literal(out, *set),
        SetExpr::One => out.push_all(b" { v }"),
        SetExpr::Param(place) => print_word(out, param_name(spec, *place)),
        SetExpr::Bits(side, place) => print_word(out, property_name(spec, *side, *place)),
        SetExpr::Union(a, b) => print_sets(out, spec, a, b" |", b),
        SetExpr::Common(a, b) => print_sets(out, spec, a, b" &", b),
        SetExpr::Without(a, b) => print_sets(out, spec, a, b" \\", b),
    }
}

/// Appends two set expressions in parentheses, with an operator between them.
#[cycle(print_set)]
pub fn print_sets(
    out: &mut Bytes,
    spec: &Spec,
    a: &Boxed<SetExpr>,
    between: &[u8],
    b: &Boxed<SetExpr>,
) -> Result<(), AllocError>
    ensures ok { OnOk result (out.new ≡ out.old ++ around_two (codes " (") (spaced (set_pieces (naming_of spec.now) a.now)) between.now (spaced (set_pieces (naming_of spec.now) b.now)) (codes " )")) }
    ensures err { OnErr result (AppendsFront out.old out.new (around_two (codes " (") (spaced (set_pieces (naming_of spec.now) a.now)) between.now (spaced (set_pieces (naming_of spec.now) b.now)) (codes " )"))) }
{
    print_set_after(out, spec, b" (", a)?;
    print_set_after(out, spec, between, b)?;
    out.push_all(b" )")
}

#[cycle(print_set)]
fn print_set_after(
    out: &mut Bytes,
    spec: &Spec,
    before: &[u8],
    e: &Boxed<SetExpr>,
) -> Result<(), AllocError>
    ensures ok { OnOk result (out.new ≡ out.old ++ (before.now ++ spaced (set_pieces (naming_of spec.now) e.now))) }
    ensures err { OnErr result (AppendsFront out.old out.new (before.now ++ spaced (set_pieces (naming_of spec.now) e.now))) }
{
    out.push_all(before)?;
    print_set(out, spec, e.get())
}

/// Appends a set expression between `before` and the parenthesis that closes.
pub fn print_set_within(
    out: &mut Bytes,
    spec: &Spec,
    before: &[u8],
    e: &Boxed<SetExpr>,
) -> Result<(), AllocError>
    ensures ok { OnOk result (out.new ≡ out.old ++ around before.now (spaced (set_pieces (naming_of spec.now) e.now)) (codes " )")) }
    ensures err { OnErr result (AppendsFront out.old out.new (around before.now (spaced (set_pieces (naming_of spec.now) e.now)) (codes " )"))) }
{
    print_set_after(out, spec, before, e)?;
    out.push_all(b" )")
}
