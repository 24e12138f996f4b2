//! Prints how properties step.
ghost use Rattle.std.specs.Prelude.{◌≡◌, ◌++◌, OnOk, OnErr};
ghost use Rattle.hk_base.specs.Lists.{AppendsFront};
ghost use Rattle.hk_print.specs.Printed.{lines_text, step_line, step_lines, step_pieces};
ghost use Rattle.hk_print.specs.Expressions.{naming_of};
ghost use Rattle.hk_print.specs.Pieces.{line_text, spaced};

use crate::numbers::print_num;
use crate::sets::print_set;
use crate::words::print_word;
use hk_base::Bytes;
use hk_spec::{NumExpr, PropDecl, Spec, StepExpr};
use std::alloc::AllocError;

/// Appends a line for each property of one side and its step.
pub fn print_steps(
    out: &mut Bytes,
    spec: &Spec,
    properties: &[PropDecl],
    steps: &[StepExpr],
) -> Result<(), AllocError>
    ensures ok { OnOk result (out.new ≡ out.old ++ lines_text (step_lines (naming_of spec.now) properties.now steps.now)) }
    ensures err { OnErr result (AppendsFront out.old out.new (lines_text (step_lines (naming_of spec.now) properties.now steps.now))) }
{
    for (property, step) in properties.iter().zip(steps) {
        print_step(out, spec, property, step)?;
    }
    Ok(())
}

fn print_step(
    out: &mut Bytes,
    spec: &Spec,
    property: &PropDecl,
    step: &StepExpr,
) -> Result<(), AllocError>
    ensures ok { OnOk result (out.new ≡ out.old ++ line_text (step_line (naming_of spec.now) property.now step.now)) }
    ensures err { OnErr result (AppendsFront out.old out.new (line_text (step_line (naming_of spec.now) property.now step.now))) }
{
    out.push_all(b"step")?;
    print_word(out, property.name.as_slice())?;
    print_next(out, spec, step)?;
    out.push_all(b"\n")
}

/// Appends how a property's next value is computed.
fn print_next(out: &mut Bytes, spec: &Spec, step: &StepExpr) -> Result<(), AllocError>
    ensures ok { OnOk result (out.new ≡ out.old ++ spaced (step_pieces (naming_of spec.now) step.now)) }
    ensures err { OnErr result (AppendsFront out.old out.new (spaced (step_pieces (naming_of spec.now) step.now))) }
{
    match step {
        StepExpr::Num(e) => print_num(out, spec, e),
        StepExpr::Pair(low, high) => print_two(out, spec, low, high),
        StepExpr::Set(e) => print_set(out, spec, e),
    }
}

fn print_two(out: &mut Bytes, spec: &Spec, low: &NumExpr, high: &NumExpr) -> Result<(), AllocError>
    ensures ok { OnOk result (out.new ≡ out.old ++ spaced (step_pieces (naming_of spec.now) (StepExpr.Pair low.now high.now))) }
    ensures err { OnErr result (AppendsFront out.old out.new (spaced (step_pieces (naming_of spec.now) (StepExpr.Pair low.now high.now)))) }
{
    print_num(out, spec, low)?;
    print_num(out, spec, high)
}
