//! What a search found, as a text.

ghost use Rattle.std.specs.Prelude.{◌≡◌, ◌++◌, OnOk, OnErr};
ghost use Rattle.hk_base.specs.Lists.{AppendsFront};
ghost use Rattle.hk_search.specs.AnswerTexts.{finding_text, first_line, optimal_line, answer_lines, answer_line};

use crate::found::Found;
use hk_base::Bytes;
use hk_group::{Linear, Problem};
use hk_text::push_number;
use std::alloc::AllocError;

/// Appends the text of what a search found: a first line `infeasible`, `solution` or, where the
/// problem has an objective, `optimal COST`, and after a solution a line `NAME VALUE` for each
/// variable in the order of declaration. Without memory a front of that text was appended.
pub fn answer_text(
    problem: &Problem,
    found: &Option<Found>,
    out: &mut Bytes,
) -> Result<(), AllocError>
    ensures text { OnOk result (out.new ≡ out.old ++ finding_text problem.now found.now) }
    ensures front { OnErr result (AppendsFront out.old out.new (finding_text problem.now found.now)) }
{
    match found {
        None => out.push_all(b"infeasible\n"),
        Some(solution) => {
            push_first_line(problem.objective(), solution.cost, out)?;
            push_lines(problem.names(), solution.values.as_slice(), out)
        }
    }
}

/// Appends the first line for a solution of this cost.
fn push_first_line(objective: &Option<Linear>, cost: i64, out: &mut Bytes) -> Result<(), AllocError>
    ensures text { OnOk result (out.new ≡ out.old ++ first_line objective.now cost) }
    ensures front { OnErr result (AppendsFront out.old out.new (first_line objective.now cost)) }
{
    match objective {
        None => out.push_all(b"solution\n"),
        Some(_) => push_optimal(cost, out),
    }
}

fn push_optimal(cost: i64, out: &mut Bytes) -> Result<(), AllocError>
    ensures text { OnOk result (out.new ≡ out.old ++ optimal_line cost) }
    ensures front { OnErr result (AppendsFront out.old out.new (optimal_line cost)) }
{
    out.push_all(b"optimal ")?;
    push_number(out, cost)?;
    out.push_all(b"\n")
}

fn push_lines(names: &[Bytes], values: &[u8], out: &mut Bytes) -> Result<(), AllocError>
    ensures text { OnOk result (out.new ≡ out.old ++ answer_lines names.now values.now) }
    ensures front { OnErr result (AppendsFront out.old out.new (answer_lines names.now values.now)) }
{
    for (name, value) in names.iter().zip(values) {
        push_line(name.as_slice(), *value, out)?;
    }
    Ok(())
}

fn push_line(name: &[u8], value: u8, out: &mut Bytes) -> Result<(), AllocError>
    ensures text { OnOk result (out.new ≡ out.old ++ answer_line name.now value) }
    ensures front { OnErr result (AppendsFront out.old out.new (answer_line name.now value)) }
{
    out.push_all(name)?;
    out.push_all(b" ")?;
    push_number(out, value as i64)?;
    out.push_all(b"\n")
}
