//! The steps of a state, written in place.
ghost use Rattle.std.specs.Prelude.{◌≡◌, ◌≤◌, length, map, drop};
ghost use Rattle.hk_kinds.specs.Parts.{with_part};
ghost use Rattle.hk_kinds.specs.declared.properties.Prop.TheVariants.{Pair};
ghost use Rattle.hk_spec.specs.Steps.{step_value};
ghost use Rattle.hk_spec.specs.Values.{num_value};

use crate::expressions::NumExpr;
use crate::parts::StepExpr;
use crate::settings::Setting;
use crate::values::{num_value, set_value};
use hk_kinds::{Prop, State};

/// The value that a step gives its property.
pub fn step_value(e: &StepExpr, at: &Setting<'_>) -> Prop
    ensures { result ≡ step_value at.now e.now }
{
    match e {
        StepExpr::Num(e) => Prop::Num(num_value(e, at)),
        StepExpr::Pair(low, high) => pair_value(low, high, at),
        StepExpr::Set(e) => Prop::Bits(set_value(e, at)),
    }
}

/// The value of a pair. Most pairs copy a property, as a register that shifts does: reads of its two
/// numbers need no walk of a tree.
fn pair_value(low: &NumExpr, high: &NumExpr, at: &Setting<'_>) -> Prop
    ensures { result ≡ Pair (num_value at.now low.now) (num_value at.now high.now) }
{
    match low {
        NumExpr::Low(side, place) => Prop::Pair(
            at.state(*side).low(usize::from(*place)),
            high_value(high, at),
        ),
        _ => Prop::Pair(num_value(low, at), num_value(high, at)),
    }
}

/// The value of a number expression that mostly reads the second number of a pair.
fn high_value(high: &NumExpr, at: &Setting<'_>) -> i64
    ensures { result ≡ num_value at.now high.now }
{
    match high {
        NumExpr::High(side, place) => at.state(*side).high(usize::from(*place)),
        _ => num_value(high, at),
    }
}

/// Writes the values of steps over the properties of a state from a place on.
pub fn write_steps(steps: &[StepExpr], at: &Setting<'_>, to: &mut State, first: usize)
    requires { length steps.now ≤ length (drop first to.old) }
    ensures { to.new ≡ with_part first (map (step_value at.now) steps.now) to.old }
{
    // The places of a state fit their type, as those of a slice do.
    let _places = to.view().len();
    for i in 0..steps.len() {
        let value = step_value(&steps[i], at);
        to.set(first + i, value);
    }
}
