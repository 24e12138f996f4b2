//! The properties that the expressions of a specification name.
ghost use Rattle.std.specs.Prelude.{◌≡◌, slice_get};
ghost use Rattle.hk_spec.specs.Grades.{kind_at};
ghost use Rattle.hk_spec.specs.Specifications.{kinds_of_properties};

use hk_kinds::Kind;
use hk_spec::{PropDecl, Side};
use std::marker::Model;

/// The properties of both sides of a specification. Contracts see their kinds alone.
#[derive(Drop)]
pub struct Properties<'a> {
    pub down: &'a [PropDecl],
    pub up: &'a [PropDecl],
}

impl<'a> Model for Properties<'a> {
    ghost use Rattle.hk_spec.specs.Grades.{Kinds};
    ghost use Rattle.hk_spec.specs.Specifications.{kinds_of_properties};

    ghost Value = { Kinds };

    ghost view = { λ p. record { down = kinds_of_properties p.down.now; up = kinds_of_properties p.up.now } };
}

impl<'a> Properties<'a> {
    /// The kind of the property at a place of a side, where there is one.
    pub fn kind_at(&self, side: Side, place: u16) -> Option<Kind>
        ensures { result ≡ kind_at self.now side place }
    {
        match side {
            Side::Down => kind_in(self.down, place),
            Side::Up => kind_in(self.up, place),
        }
    }
}

/// The kind of the property at a place, where there is one.
fn kind_in(properties: &[PropDecl], place: u16) -> Option<Kind>
    ensures { result ≡ slice_get (kinds_of_properties properties.now) place }
{
    match properties.get(usize::from(place)) {
        Some(property) => Some(property.kind),
        None => None,
    }
}
