//! Where the parts of a group stand: for each of its variables and each part the place of the
//! variable in the part's scope.
ghost use Rattle.std.specs.Prelude.{◌≡◌, ◌<◌, ◌++◌, length, IfOk, OnOk};
ghost use Rattle.hk_group.specs.Composed.{places_of, plan_of};

use crate::parts::GroupPart;
use crate::scopes::place_in;
use hk_base::List;
use std::alloc::{AllocError, Global};

/// The places of variables in the scopes of parts, variable by variable.
pub fn plan_of(
    alloc: Global,
    parts: &[GroupPart],
    vars: &[u16],
) -> Result<List<Option<u16>>, AllocError>
    ensures { IfOk result (λ plan. plan ≡ plan_of parts.now vars.now) }
{
    let mut plan = List::new(alloc);
    for variable in vars {
        if let Err(refused) = push_places(&mut plan, parts, *variable) {
            drop(plan);
            return Err(refused);
        }
    }
    Ok(plan)
}

/// Puts the places of a variable in the scopes of parts at the end of a plan.
fn push_places(
    plan: &mut List<Option<u16>>,
    parts: &[GroupPart],
    variable: u16,
) -> Result<(), AllocError>
    ensures { OnOk result (plan.new ≡ plan.old ++ places_of parts.now variable) }
{
    for part in parts {
        plan.push(place_in(part.scope.as_slice(), variable))?;
    }
    Ok(())
}
