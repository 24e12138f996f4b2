//! Whether the sense of a test or of a step is an allowed one.
ghost use Rattle.std.specs.Prelude.{◌≡◌};
ghost use Rattle.hk_spec.specs.Grades.{unless_rises, unless_falls, first_wrong, wrong_test, wrong_step};

use crate::properties::Properties;
use crate::senses::{cond_sense, num_sense, set_sense};
use hk_kinds::Kind;
use hk_spec::{Cond, Sense, StepExpr};

/// The sense of a test, where it isn't allowed: a test may be Fixed or rise.
pub fn wrong_test(test: &Cond, of: &Properties<'_>) -> Option<Sense>
    ensures { result ≡ wrong_test of.now test.now }
{
    unless_rises(cond_sense(test, of))
}

/// The sense of a step of a property of this kind, where it isn't allowed. Min, AllBits and the first
/// number of an Interval may be Fixed or fall; Max, SomeBits and the second number of an Interval may
/// be Fixed or rise. Where both numbers of an Interval are wrong, it is the first one's. Of a step
/// whose form isn't the one that the kind asks nothing is told: no specification has it.
pub fn wrong_step(kind: Kind, step: &StepExpr, of: &Properties<'_>) -> Option<Sense>
    ensures { result ≡ wrong_step of.now kind step.now }
{
    match (kind, step) {
        (Kind::Min, StepExpr::Num(e)) => unless_falls(num_sense(e, of)),
        (Kind::Max, StepExpr::Num(e)) => unless_rises(num_sense(e, of)),
        (Kind::Interval, StepExpr::Pair(low, high)) => first_wrong(
            unless_falls(num_sense(low, of)),
            unless_rises(num_sense(high, of)),
        ),
        (Kind::SomeBits, StepExpr::Set(e)) => unless_rises(set_sense(e, of)),
        (Kind::AllBits, StepExpr::Set(e)) => unless_falls(set_sense(e, of)),
        _ => None,
    }
}

/// The sense, where it is neither Fixed nor Rises.
fn unless_rises(sense: Sense) -> Option<Sense>
    ensures { result ≡ unless_rises sense }
{
    match sense {
        Sense::Fixed => None,
        Sense::Rises => None,
        wrong => Some(wrong),
    }
}

/// The sense, where it is neither Fixed nor Falls.
fn unless_falls(sense: Sense) -> Option<Sense>
    ensures { result ≡ unless_falls sense }
{
    match sense {
        Sense::Fixed => None,
        Sense::Falls => None,
        wrong => Some(wrong),
    }
}

/// The first of two wrong senses, where there is one.
fn first_wrong(first: Option<Sense>, second: Option<Sense>) -> Option<Sense>
    ensures { result ≡ first_wrong first second }
{
    match first {
        Some(sense) => Some(sense),
        None => second,
    }
}
