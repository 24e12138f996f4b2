//! The initial states of parts side by side.
ghost use Rattle.std.specs.Prelude.{◌≡◌, ◌≤◌, length, drop};
ghost use Rattle.hk_group.specs.Groups.{down_width, up_width, down_shape_of, up_shape_of, initial_down_of, initial_up_of};
ghost use Rattle.hk_kinds.specs.Parts.{with_part};
ghost use Rattle.hk_spec.specs.Specifications.{initial_values};

use crate::parts::GroupPart;
use crate::writing::write_initial;
use hk_kinds::State;

impl GroupPart {
    /// Writes the initial values of the part's down properties over those of a state from a place on.
    pub fn begin_down(&self, to: &mut State, first: usize)
        requires { down_width self.now ≤ length (drop first to.old) }
        ensures { to.new ≡ with_part first (initial_values self.now.bound.spec.down) to.old }
    {
        write_initial(self.bound.spec.down.as_slice(), to, first);
    }

    /// Writes the initial values of the part's up properties over those of a state from a place on.
    pub fn begin_up(&self, to: &mut State, first: usize)
        requires { up_width self.now ≤ length (drop first to.old) }
        ensures { to.new ≡ with_part first (initial_values self.now.bound.spec.up) to.old }
    {
        write_initial(self.bound.spec.up.as_slice(), to, first);
    }
}

/// Writes the initial down state of parts.
pub fn begin_downs(parts: &[GroupPart], to: &mut State)
    requires { length to.old ≡ length (down_shape_of parts.now) }
    ensures { to.new ≡ initial_down_of parts.now }
{
    // The places of a state fit their type, as those of a slice do.
    let _places = to.view().len();
    let mut first = 0;
    for k in 0..parts.len() {
        let part = &parts[k];
        part.begin_down(to, first);
        first += part.down_count();
    }
}

/// Writes the initial up state of parts.
pub fn begin_ups(parts: &[GroupPart], to: &mut State)
    requires { length to.old ≡ length (up_shape_of parts.now) }
    ensures { to.new ≡ initial_up_of parts.now }
{
    // The places of a state fit their type, as those of a slice do.
    let _places = to.view().len();
    let mut first = 0;
    for k in 0..parts.len() {
        let part = &parts[k];
        part.begin_up(to, first);
        first += part.up_count();
    }
}
