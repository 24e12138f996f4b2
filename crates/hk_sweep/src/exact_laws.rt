//! The laws of exact revisions, which the contracts of these functions state. The functions do nothing.
ghost use Rattle.std.specs.Prelude.{◌≡◌, ℕ, ℤ, ◌+◌, List, length};
ghost use Rattle.hk_group.specs.GroupRuns.{GroupAccepts};
ghost use Rattle.hk_group.specs.Groups.{PlainGroup, IsGroup, group_initial_down};
ghost use Rattle.hk_table.specs.Keeps.{Supports};
ghost use Rattle.hk_table.specs.Tables.{PlainRow, layer_values};
ghost use Rattle.hk_sweep.specs.Exact.{PathTo, HasFewSteps};
ghost use Rattle.hk_sweep.specs.Loose.{group_shape};
ghost use Rattle.hk_sweep.specs.OneValue.{AreOnly};
ghost use Rattle.hk_sweep.specs.Tight.{tight_revision};
ghost use Rattle.hk_layers.specs.Transitions.{transitions_of, layer_sets, down_along};

/// Where each layer has at most as many distinct steps as the width says, every down state of the
/// tight revision is the exact down state of each path that reaches it.
pub fn narrow_tight_revision_is_exact()
    ensures { (g : PlainGroup) (sets domains : List ℕ) (best : ℤ) (width : ℕ) (old : List (List PlainRow)) (path : List ℕ) (row : PlainRow) → IsGroup g
        → HasFewSteps (transitions_of g) width 0 (layer_values (group_shape g sets)) (tight_revision g sets domains best width old)
        → PathTo (layer_values (group_shape g sets)) (tight_revision g sets domains best width old) 0 path row
        → row.down ≡ down_along (transitions_of g) 0 (group_initial_down g) path }
{}

/// Where each domain of a group has at most one value left, and the tight revision supports some
/// value, the group accepts the values that are left under the bound.
pub fn one_value_left_is_accepted()
    ensures { (g : PlainGroup) (sets domains : List ℕ) (best : ℤ) (width : ℕ) (old : List (List PlainRow)) (values : List ℕ) (level value : ℕ) → IsGroup g → length old ≡ length g.vars + 1
        → AreOnly (layer_sets g domains) values
        → Supports (group_shape g sets) (tight_revision g sets domains best width old) level value
        → GroupAccepts g best values }
{}
