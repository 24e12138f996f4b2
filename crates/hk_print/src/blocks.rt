//! Prints a specification, line by line.
ghost use Rattle.std.specs.Prelude.{◌≡◌, ◌++◌, OnOk, OnErr};
ghost use Rattle.hk_base.specs.Lists.{AppendsFront};
ghost use Rattle.hk_print.specs.Printed.{declaration_lines, first_line, lines_text, rule_lines, spec_text, test_line};
ghost use Rattle.hk_print.specs.Pieces.{line_text};

use crate::conditions::print_cond;
use crate::params::print_params;
use crate::properties::print_properties;
use crate::steps::print_steps;
use crate::words::print_word;
use hk_base::Bytes;
use hk_spec::Spec;
use std::alloc::AllocError;

/// Appends the text of a specification: a line `spec` with its name and parameters, a line for each
/// property, one for the test, one for each step, and `end`. Without memory a front of that text
/// was appended.
pub fn print_spec(spec: &Spec, out: &mut Bytes) -> Result<(), AllocError>
    ensures ok { OnOk result (out.new ≡ out.old ++ spec_text spec.now) }
    ensures err { OnErr result (AppendsFront out.old out.new (spec_text spec.now)) }
{
    print_declarations(out, spec)?;
    print_rules(out, spec)?;
    out.push_all(b"end\n")
}

fn print_declarations(out: &mut Bytes, spec: &Spec) -> Result<(), AllocError>
    ensures ok { OnOk result (out.new ≡ out.old ++ lines_text (declaration_lines spec.now)) }
    ensures err { OnErr result (AppendsFront out.old out.new (lines_text (declaration_lines spec.now))) }
{
    print_first_line(out, spec)?;
    print_properties(out, b"down", spec.down.as_slice())?;
    print_properties(out, b"up", spec.up.as_slice())
}

fn print_rules(out: &mut Bytes, spec: &Spec) -> Result<(), AllocError>
    ensures ok { OnOk result (out.new ≡ out.old ++ lines_text (rule_lines spec.now)) }
    ensures err { OnErr result (AppendsFront out.old out.new (lines_text (rule_lines spec.now))) }
{
    print_test_line(out, spec)?;
    print_steps(out, spec, spec.down.as_slice(), spec.down_step.as_slice())?;
    print_steps(out, spec, spec.up.as_slice(), spec.up_step.as_slice())
}

fn print_first_line(out: &mut Bytes, spec: &Spec) -> Result<(), AllocError>
    ensures ok { OnOk result (out.new ≡ out.old ++ line_text (first_line spec.now)) }
    ensures err { OnErr result (AppendsFront out.old out.new (line_text (first_line spec.now))) }
{
    out.push_all(b"spec")?;
    print_word(out, spec.name.as_slice())?;
    print_params(out, spec.params.as_slice())?;
    out.push_all(b"\n")
}

fn print_test_line(out: &mut Bytes, spec: &Spec) -> Result<(), AllocError>
    ensures ok { OnOk result (out.new ≡ out.old ++ line_text (test_line spec.now)) }
    ensures err { OnErr result (AppendsFront out.old out.new (line_text (test_line spec.now))) }
{
    out.push_all(b"test")?;
    print_cond(out, spec, &spec.test)?;
    out.push_all(b"\n")
}
