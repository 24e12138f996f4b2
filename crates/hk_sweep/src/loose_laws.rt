//! What loose revisions keep, which the contract of this function states. The function does nothing.
ghost use Rattle.std.specs.Prelude.{ℕ, ℤ, List, All};
ghost use Rattle.hk_spec.specs.Monotone.{IsMonotone};
ghost use Rattle.hk_group.specs.GroupRuns.{GroupAccepts};
ghost use Rattle.hk_group.specs.Groups.{PlainGroup, Part, IsGroup};
ghost use Rattle.hk_table.specs.Keeps.{Keeps, LieIn};
ghost use Rattle.hk_table.specs.Tables.{PlainRow};
ghost use Rattle.hk_sweep.specs.Loose.{IsLooseRevision, group_shape};
ghost use Rattle.hk_layers.specs.Transitions.{layer_sets};

/// A loose revision of a group's table keeps every assignment that the table keeps, that lies in the
/// domains and that the group accepts under the bound, where each part of the group is monotone.
pub fn loose_revision_keeps_every_solution()
    ensures { (g : PlainGroup) (sets domains : List ℕ) (best : ℤ) (old new : List (List PlainRow)) (values : List ℕ) → IsGroup g → All (λ (part : Part). IsMonotone part.bound) g.parts → IsLooseRevision g sets domains best old new → Keeps (group_shape g sets) old values → LieIn (layer_sets g domains) values → GroupAccepts g best values → Keeps (group_shape g sets) new values }
{}
