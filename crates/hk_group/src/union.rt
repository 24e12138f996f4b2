//! The variables of several scopes together.
ghost use Rattle.std.specs.Prelude.{◌≡◌, ◌↔◌, ℕ, Any, Contains, IfOk};
ghost use Rattle.std.specs.List.Sorted.{IsStrictlyIncreasing};
ghost use Rattle.hk_group.specs.Groups.{Part};
ghost use Rattle.hk_group.specs.inside.Joined.{scopes_joined};

use crate::parts::GroupPart;
use hk_base::List;
use std::alloc::{AllocError, Global};

/// The variables of the scopes of parts, each once and in order.
pub fn union_of(alloc: Global, parts: &[GroupPart]) -> Result<List<u16>, AllocError>
    ensures rising { IfOk result IsStrictlyIncreasing }
    ensures union { IfOk result (λ vars. (variable : ℕ) → Contains vars variable ↔ Any (λ (part : Part). Contains part.scope variable) parts.now) }
{
    match joined(alloc, parts) {
        Ok(variables) => Ok(sorted_once(variables)),
        Err(refused) => Err(refused),
    }
}

/// The variables of the scopes of parts, scope after scope.
fn joined(alloc: Global, parts: &[GroupPart]) -> Result<List<u16>, AllocError>
    ensures { IfOk result (λ variables. variables ≡ scopes_joined parts.now) }
{
    let mut variables = List::new(alloc);
    for part in parts {
        if let Err(refused) = variables.push_all(part.scope.as_slice()) {
            drop(variables);
            return Err(refused);
        }
    }
    Ok(variables)
}

/// The variables of a list, each once and in order.
fn sorted_once(variables: List<u16>) -> List<u16>
    ensures rising { IsStrictlyIncreasing result }
    ensures same { (variable : ℕ) → Contains result variable ↔ Contains variables variable }
{
    let mut sorted = variables.into_vec();
    sorted.sort_unstable();
    sorted.dedup();
    List::from_vec(sorted)
}
