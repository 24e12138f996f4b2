//! For which shapes a diagram can be made.

ghost use Rattle.std.specs.Prelude.{◌<◌, length, All, IsTrue};
ghost use Rattle.hk_arena.specs.Making.{IsMakeable};
ghost use Rattle.hk_text.specs.Sets.{members};

use hk_table::{Shape, value_count};

/// Whether each of the sets has a value.
fn have_values(sets: &[u128]) -> bool
    ensures { IsTrue result → All (λ set. 0 < length (members set)) sets.now }
{
    sets.iter().all(|set| value_count(*set) > 0)
}

/// Whether a diagram of a few layers can be made.
pub fn is_makeable(shape: &Shape, width: u16) -> bool
    ensures { IsTrue result → IsMakeable shape.now width }
{
    let sets = shape.domains.as_slice();
    let down = shape.down.as_slice().len();
    let up = shape.up.as_slice().len();
    if width == 0 || width > 256 || sets.len() == 0 || sets.len() > 25 || down > 50 || up > 50 {
        return false;
    }
    have_values(sets)
}
