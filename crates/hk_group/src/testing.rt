//! Tests of the states of parts side by side, part after part.
ghost use Rattle.std.specs.Prelude.{◌≡◌, ◌<◌};
ghost use Rattle.hk_group.specs.Groups.{passes_at, down_width, up_width, down_shape_of, up_shape_of};
ghost use Rattle.hk_group.specs.inside.Placed.{IsPlaceOf, ArePlaces, passes_by};
ghost use Rattle.hk_kinds.specs.Parts.{part_at};
ghost use Rattle.hk_kinds.specs.Shapes.{HasShape};
ghost use Rattle.hk_spec.specs.Specifications.{down_shape, up_shape};

use crate::parts::GroupPart;
use hk_kinds::StateView;

impl GroupPart {
    /// Whether the part's test holds of a value at a place of its scope and of its own states, which
    /// begin at the places `first_down` and `first_up`. Where it has no place it has no test.
    pub fn passes(
        &self,
        place: Option<u16>,
        value: u8,
        down: &StateView<'_>,
        first_down: usize,
        up: &StateView<'_>,
        first_up: usize,
        best: i64,
    ) -> bool
        requires place { IsPlaceOf self.now place }
        requires value { value < 128 }
        requires down { HasShape (down_shape self.now.bound.spec) (part_at first_down (down_width self.now) down.now) }
        requires up { HasShape (up_shape self.now.bound.spec) (part_at first_up (up_width self.now) up.now) }
        ensures { result ≡ passes_at self.now place value best (part_at first_down (down_width self.now) down.now) (part_at first_up (up_width self.now) up.now) }
    {
        let Some(at) = place else {
            return true;
        };
        let down = down.part(first_down, self.down_count());
        let up = up.part(first_up, self.up_count());
        self.bound.passes_view(at as usize, value, &down, &up, best)
    }
}

/// Whether all tests of parts hold, each at its place.
pub fn parts_pass(
    parts: &[GroupPart],
    places: &[Option<u16>],
    value: u8,
    down: &StateView<'_>,
    up: &StateView<'_>,
    best: i64,
) -> bool
    requires places { ArePlaces parts.now places.now }
    requires value { value < 128 }
    requires down { HasShape (down_shape_of parts.now) down.now }
    requires up { HasShape (up_shape_of parts.now) up.now }
    ensures { result ≡ passes_by parts.now places.now value best down.now up.now }
{
    // The places of a state fit their type.
    let _down_count = down.len();
    let _up_count = up.len();
    let mut first_down = 0;
    let mut first_up = 0;
    for k in 0..parts.len() {
        let part = &parts[k];
        if !part.passes(places[k], value, down, first_down, up, first_up, best) {
            return false;
        }
        first_down += part.down_count();
        first_up += part.up_count();
    }
    true
}
