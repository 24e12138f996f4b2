//! Prints number expressions, each operation in parentheses of its own.
ghost use Rattle.std.specs.Prelude.{◌≡◌, ◌++◌, codes, OnOk, OnErr};
ghost use Rattle.hk_base.specs.Lists.{AppendsFront};
ghost use Rattle.hk_print.specs.Expressions.{naming_of, num_pieces};
ghost use Rattle.hk_print.specs.Pieces.{around, around_two, piece, spaced};

use crate::names::{param_name, property_name};
use crate::sets::print_set_within;
use crate::words::{print_number, print_word};
use hk_base::Bytes;
use hk_spec::{NumExpr, Spec};
use sqlite_items::Boxed;
use std::alloc::AllocError;

/// Appends a number expression.
#[cycle(print_num)]
pub fn print_num(out: &mut Bytes, spec: &Spec, e: &NumExpr) -> Result<(), AllocError>
    ensures ok { OnOk result (out.new ≡ out.old ++ spaced (num_pieces (naming_of spec.now) e.now)) }
    ensures err { OnErr result (AppendsFront out.old out.new (spaced (num_pieces (naming_of spec.now) e.now))) }
{
    match e {
        NumExpr::Lit(n) => print_number(out, *n),
        NumExpr::Value => out.push_all(b" v"),
        NumExpr::Index => out.push_all(b" i"),
        NumExpr::Length => out.push_all(b" n"),
        NumExpr::Best => out.push_all(b" best"),
        NumExpr::Param(place) => print_word(out, param_name(spec, *place)),
        NumExpr::Item(place) => print_named(out, param_name(spec, *place), b" [ i ]"),
        NumExpr::Number(side, place) => print_word(out, property_name(spec, *side, *place)),
        NumExpr::Low(side, place) => {
            print_named(out, property_name(spec, *side, *place), b" . lo")
        }
        NumExpr::High(side, place) => {
            print_named(out, property_name(spec, *side, *place), b" . hi")
        }
        NumExpr::Card(set) => print_set_within(out, spec, b" card (", set),
        NumExpr::Add(a, b) => print_nums(out, spec, b" (", a, b" +", b),
        NumExpr::Least(a, b) => print_nums(out, spec, b" min (", a, b" ,", b),
        NumExpr::Most(a, b) => print_nums(out, spec, b" max (", a, b" ,", b),
        NumExpr::Minus(a, b) => print_nums(out, spec, b" (", a, b" -", b),
        NumExpr::Negative(a) => print_num_within(out, spec, b" ( -", a),
        NumExpr::Times(a, b) => print_nums(out, spec, b" (", a, b" *", b),
    }
}

/// Appends two number expressions, with `before` before and `between` between them, and the
/// parenthesis that closes.
#[cycle(print_num)]
pub fn print_nums(
    out: &mut Bytes,
    spec: &Spec,
    before: &[u8],
    a: &Boxed<NumExpr>,
    between: &[u8],
    b: &Boxed<NumExpr>,
) -> Result<(), AllocError>
    ensures ok { OnOk result (out.new ≡ out.old ++ around_two before.now (spaced (num_pieces (naming_of spec.now) a.now)) between.now (spaced (num_pieces (naming_of spec.now) b.now)) (codes " )")) }
    ensures err { OnErr result (AppendsFront out.old out.new (around_two before.now (spaced (num_pieces (naming_of spec.now) a.now)) between.now (spaced (num_pieces (naming_of spec.now) b.now)) (codes " )"))) }
{
    print_num_after(out, spec, before, a)?;
    print_num_after(out, spec, between, b)?;
    out.push_all(b" )")
}

#[cycle(print_num)]
fn print_num_within(
    out: &mut Bytes,
    spec: &Spec,
    before: &[u8],
    e: &Boxed<NumExpr>,
) -> Result<(), AllocError>
    ensures ok { OnOk result (out.new ≡ out.old ++ around before.now (spaced (num_pieces (naming_of spec.now) e.now)) (codes " )")) }
    ensures err { OnErr result (AppendsFront out.old out.new (around before.now (spaced (num_pieces (naming_of spec.now) e.now)) (codes " )"))) }
{
    print_num_after(out, spec, before, e)?;
    out.push_all(b" )")
}

#[cycle(print_num)]
fn print_num_after(
    out: &mut Bytes,
    spec: &Spec,
    before: &[u8],
    e: &Boxed<NumExpr>,
) -> Result<(), AllocError>
    ensures ok { OnOk result (out.new ≡ out.old ++ (before.now ++ spaced (num_pieces (naming_of spec.now) e.now))) }
    ensures err { OnErr result (AppendsFront out.old out.new (before.now ++ spaced (num_pieces (naming_of spec.now) e.now))) }
{
    out.push_all(before)?;
    print_num(out, spec, e.get())
}

/// Appends a name after a space, and what stands after it.
fn print_named(out: &mut Bytes, name: &[u8], after: &[u8]) -> Result<(), AllocError>
    ensures ok { OnOk result (out.new ≡ out.old ++ (spaced (piece name.now) ++ after.now)) }
    ensures err { OnErr result (AppendsFront out.old out.new (spaced (piece name.now) ++ after.now)) }
{
    print_word(out, name)?;
    out.push_all(after)
}
