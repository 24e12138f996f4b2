//! Steps of the states of parts side by side, part after part.
ghost use Rattle.std.specs.Prelude.{◌≡◌, ◌≤◌, ◌<◌, length, drop, map};
ghost use Rattle.hk_group.specs.Groups.{down_at, up_at, down_width, up_width, down_shape_of, up_shape_of};
ghost use Rattle.hk_group.specs.inside.Placed.{IsPlaceOf, ArePlaces, down_by, up_by};
ghost use Rattle.hk_kinds.specs.Parts.{part_at, with_part};
ghost use Rattle.hk_kinds.specs.Shapes.{HasShape};
ghost use Rattle.hk_spec.specs.Specifications.{down_shape, up_shape};

use crate::parts::GroupPart;
use hk_kinds::{State, StateView};

impl GroupPart {
    /// Writes the part's own down state after a value at a place of its scope, or as it was where it
    /// has no place, over the properties of `to` from the place `first` on, where the part's own
    /// properties begin in `from` too.
    pub fn write_down(
        &self,
        place: Option<u16>,
        value: u8,
        from: &StateView<'_>,
        to: &mut State,
        first: usize,
    )
        requires place { IsPlaceOf self.now place }
        requires value { value < 128 }
        requires from { HasShape (down_shape self.now.bound.spec) (part_at first (down_width self.now) from.now) }
        requires room { down_width self.now ≤ length (drop first to.old) }
        ensures { to.new ≡ with_part first (down_at self.now place value (part_at first (down_width self.now) from.now)) to.old }
    {
        let own = from.part(first, self.down_count());
        match place {
            Some(at) => self.bound.write_down(at as usize, value, &own, to, first),
            None => to.write_part(first, &own),
        }
    }

    /// Writes the part's own up state before a value at a place of its scope, or as it was where it
    /// has no place, over the properties of `to` from the place `first` on, where the part's own
    /// properties begin in `from` too.
    pub fn write_up(
        &self,
        place: Option<u16>,
        value: u8,
        from: &StateView<'_>,
        to: &mut State,
        first: usize,
    )
        requires place { IsPlaceOf self.now place }
        requires value { value < 128 }
        requires from { HasShape (up_shape self.now.bound.spec) (part_at first (up_width self.now) from.now) }
        requires room { up_width self.now ≤ length (drop first to.old) }
        ensures { to.new ≡ with_part first (up_at self.now place value (part_at first (up_width self.now) from.now)) to.old }
    {
        let own = from.part(first, self.up_count());
        match place {
            Some(at) => self.bound.write_up(at as usize, value, &own, to, first),
            None => to.write_part(first, &own),
        }
    }
}

/// Writes the down state of parts after a value, each at its place, of the state before it.
pub fn write_downs(
    parts: &[GroupPart],
    places: &[Option<u16>],
    value: u8,
    from: &StateView<'_>,
    to: &mut State,
)
    requires places { ArePlaces parts.now places.now }
    requires value { value < 128 }
    requires from { HasShape (down_shape_of parts.now) from.now }
    requires to { length to.old ≡ length from.now }
    ensures { to.new ≡ down_by parts.now places.now value from.now }
{
    // The places of a state fit their type.
    let _count = from.len();
    let mut first = 0;
    for k in 0..parts.len() {
        let part = &parts[k];
        part.write_down(places[k], value, from, to, first);
        first += part.down_count();
    }
}

/// Writes the up state of parts before a value, each at its place, of the state after it.
pub fn write_ups(
    parts: &[GroupPart],
    places: &[Option<u16>],
    value: u8,
    from: &StateView<'_>,
    to: &mut State,
)
    requires places { ArePlaces parts.now places.now }
    requires value { value < 128 }
    requires from { HasShape (up_shape_of parts.now) from.now }
    requires to { length to.old ≡ length from.now }
    ensures { to.new ≡ up_by parts.now places.now value from.now }
{
    // The places of a state fit their type.
    let _count = from.len();
    let mut first = 0;
    for k in 0..parts.len() {
        let part = &parts[k];
        part.write_up(places[k], value, from, to, first);
        first += part.up_count();
    }
}
