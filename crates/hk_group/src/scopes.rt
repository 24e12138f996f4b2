//! Scopes: lists of variables by their places, from 0, in the order of declaration.
ghost use Rattle.std.specs.Prelude.{◌≡◌, ◌<◌, ◌↔◌, length, All, Any, IsTrue, IsFalse};
ghost use Rattle.std.specs.List.Sorted.{IsStrictlyIncreasing};
ghost use Rattle.hk_group.specs.Groups.{place_in};

use hk_base::List;

/// Several scopes, as those of the parts of a group.
pub type Scopes = List<List<u16>>;

/// Whether each variable is below the next.
pub fn is_rising(scope: &[u16]) -> bool
    ensures { IsTrue result ↔ IsStrictlyIncreasing scope.now }
{
    scope.windows(2).all(|pair| pair[0] < pair[1])
}

/// Whether all of these scopes rise.
pub fn all_rise(scopes: &[List<u16>]) -> bool
    ensures rise { IsTrue result → All IsStrictlyIncreasing scopes.now }
    ensures fall { IsFalse result → Any (λ scope. IsStrictlyIncreasing scope → ⊥) scopes.now }
{
    for scope in scopes {
        if !is_rising(scope.as_slice()) {
            return false;
        }
    }
    true
}

/// The place of a variable in a rising scope, where it stands there.
pub fn place_in(scope: &[u16], variable: u16) -> Option<u16>
    requires rising { IsStrictlyIncreasing scope.now }
    requires short { length scope.now < 65536 }
    ensures { result ≡ place_in scope.now variable }
{
    match scope.binary_search(&variable) {
        Ok(place) => Some(place as u16),
        Err(_) => None,
    }
}
