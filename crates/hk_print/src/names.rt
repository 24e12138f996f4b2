//! The names that places stand for.
ghost use Rattle.std.specs.Prelude.{◌≡◌};
ghost use Rattle.hk_print.specs.Expressions.{naming_of, name_at, names_of_side, names_of_properties};

use hk_spec::{PropDecl, Side, Spec};

/// The name of the parameter at a place.
pub fn param_name(spec: &Spec, place: u16) -> &[u8]
    ensures { result.now ≡ name_at (naming_of spec.now).params place }
{
    match spec.params.as_slice().get(usize::from(place)) {
        Some(param) => param.name.as_slice(),
        None => &[],
    }
}

/// The name of the property at a place of one side.
pub fn property_name(spec: &Spec, side: Side, place: u16) -> &[u8]
    ensures { result.now ≡ name_at (names_of_side (naming_of spec.now) side) place }
{
    match side {
        Side::Down => name_in(spec.down.as_slice(), place),
        Side::Up => name_in(spec.up.as_slice(), place),
    }
}

fn name_in(properties: &[PropDecl], place: u16) -> &[u8]
    ensures { result.now ≡ name_at (names_of_properties properties.now) place }
{
    match properties.get(usize::from(place)) {
        Some(property) => property.name.as_slice(),
        None => &[],
    }
}
