//! Prints conditions, each operation in parentheses of its own.
ghost use Rattle.std.specs.Prelude.{◌≡◌, ◌++◌, codes, OnOk, OnErr};
ghost use Rattle.hk_base.specs.Lists.{AppendsFront};
ghost use Rattle.hk_print.specs.Expressions.{naming_of, cond_pieces};
ghost use Rattle.hk_print.specs.Pieces.{around, around_two, spaced};

use crate::numbers::print_nums;
use crate::sets::{print_set_within, print_sets};
use hk_base::Bytes;
use hk_spec::{Cond, Spec};
use sqlite_items::Boxed;
use std::alloc::AllocError;

/// Appends a condition.
#[cycle(print_cond)]
pub fn print_cond(out: &mut Bytes, spec: &Spec, p: &Cond) -> Result<(), AllocError>
    ensures ok { OnOk result (out.new ≡ out.old ++ spaced (cond_pieces (naming_of spec.now) p.now)) }
    ensures err { OnErr result (AppendsFront out.old out.new (spaced (cond_pieces (naming_of spec.now) p.now))) }
{
    match p {
        Cond::Always => out.push_all(b" true"),
        Cond::Never => out.push_all(b" false"),
        Cond::AtMost(a, b) => print_nums(out, spec, b" (", a, b" <=", b),
        Cond::Below(a, b) => print_nums(out, spec, b" (", a, b" <", b),
        Cond::AtLeast(a, b) => print_nums(out, spec, b" (", a, b" >=", b),
        Cond::Above(a, b) => print_nums(out, spec, b" (", a, b" >", b),
        Cond::Equal(a, b) => print_nums(out, spec, b" (", a, b" ==", b),
        Cond::Has(set) => print_set_within(out, spec, b" ( v in", set),
        Cond::Lacks(set) => print_set_within(out, spec, b" ( v notin", set),
        Cond::Subset(a, b) => print_sets(out, spec, a, b" sub", b),
        Cond::Both(p, q) => print_conds(out, spec, p, b" and", q),
        Cond::Either(p, q) => print_conds(out, spec, p, b" or", q),
        Cond::Not(p) => print_cond_within(out, spec, b" ( not", p),
    }
}

#[cycle(print_cond)]
fn print_conds(
    out: &mut Bytes,
    spec: &Spec,
    p: &Boxed<Cond>,
    between: &[u8],
    q: &Boxed<Cond>,
) -> Result<(), AllocError>
    ensures ok { OnOk result (out.new ≡ out.old ++ around_two (codes " (") (spaced (cond_pieces (naming_of spec.now) p.now)) between.now (spaced (cond_pieces (naming_of spec.now) q.now)) (codes " )")) }
    ensures err { OnErr result (AppendsFront out.old out.new (around_two (codes " (") (spaced (cond_pieces (naming_of spec.now) p.now)) between.now (spaced (cond_pieces (naming_of spec.now) q.now)) (codes " )"))) }
{
    print_cond_after(out, spec, b" (", p)?;
    print_cond_within(out, spec, between, q)
}

#[cycle(print_cond)]
fn print_cond_within(
    out: &mut Bytes,
    spec: &Spec,
    before: &[u8],
    p: &Boxed<Cond>,
) -> Result<(), AllocError>
    ensures ok { OnOk result (out.new ≡ out.old ++ around before.now (spaced (cond_pieces (naming_of spec.now) p.now)) (codes " )")) }
    ensures err { OnErr result (AppendsFront out.old out.new (around before.now (spaced (cond_pieces (naming_of spec.now) p.now)) (codes " )"))) }
{
    print_cond_after(out, spec, before, p)?;
    out.push_all(b" )")
}

#[cycle(print_cond)]
fn print_cond_after(
    out: &mut Bytes,
    spec: &Spec,
    before: &[u8],
    p: &Boxed<Cond>,
) -> Result<(), AllocError>
    ensures ok { OnOk result (out.new ≡ out.old ++ (before.now ++ spaced (cond_pieces (naming_of spec.now) p.now))) }
    ensures err { OnErr result (AppendsFront out.old out.new (before.now ++ spaced (cond_pieces (naming_of spec.now) p.now))) }
{
    out.push_all(before)?;
    print_cond(out, spec, p.get())
}
