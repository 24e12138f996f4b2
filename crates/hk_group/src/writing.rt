//! Initial values written over the properties of a state.
ghost use Rattle.std.specs.Prelude.{◌≡◌, ◌≤◌, length, drop};
ghost use Rattle.hk_kinds.specs.Parts.{with_part};
ghost use Rattle.hk_spec.specs.Specifications.{initial_values};

use hk_kinds::State;
use hk_spec::PropDecl;

/// Writes the initial values of properties over those of a state from a place on.
pub fn write_initial(properties: &[PropDecl], to: &mut State, first: usize)
    requires { length properties.now ≤ length (drop first to.old) }
    ensures { to.new ≡ with_part first (initial_values properties.now) to.old }
{
    // The places of a state fit their type, as those of a slice do.
    let _places = to.view().len();
    for i in 0..properties.len() {
        to.set(first + i, properties[i].init);
    }
}
