//! The laws of states, which the contracts of these functions state. The functions do nothing.
ghost use Rattle.std.specs.Prelude.{◌≡◌, ◌↔◌, true, List};
ghost use Rattle.std.specs.Cmp.{IsTotalOrder};
ghost use Rattle.std.specs.FinMap.{IsAntisymmetric};
ghost use Rattle.std.specs.List.{Contains};
ghost use Rattle.hk_kinds.specs.Covers.{StateCovers, state_covers};
ghost use Rattle.hk_kinds.specs.Distinct.{Ascends, distinct_states};
ghost use Rattle.hk_kinds.specs.Joins.{state_join};
ghost use Rattle.hk_kinds.specs.Lattices.{IsLattice};
ghost use Rattle.hk_kinds.specs.Orders.{state_order};
ghost use Rattle.hk_kinds.specs.Shapes.{HasShape};
ghost use Rattle.hk_kinds.specs.Tops.{top_state};
ghost use Rattle.hk_kinds.specs.declared.kinds.Kind.{Kind};
ghost use Rattle.hk_kinds.specs.declared.properties.Prop.{Prop};

/// The states of a shape are a lattice: their join covers both and is the least that does, and to
/// cover is reflexive, transitive and antisymmetric.
pub fn states_are_a_lattice()
    ensures { (kinds : List Kind) → IsLattice (HasShape kinds) (state_join kinds) (state_covers kinds) }
{}

/// The test of covering says whether the one state covers the other.
pub fn test_of_covering()
    ensures { (kinds : List Kind) (mine theirs : List Prop) → (state_covers kinds mine theirs ≡ true) ↔ StateCovers kinds mine theirs }
{}

/// A state of a shape covers another exactly where the join with it is this state.
pub fn covering_by_joins()
    ensures { (kinds : List Kind) (mine theirs : List Prop) → HasShape kinds mine → HasShape kinds theirs → StateCovers kinds mine theirs ↔ (state_join kinds mine theirs ≡ mine) }
{}

/// The join of two states of a shape has the shape.
pub fn joins_have_the_shape()
    ensures { (kinds : List Kind) (mine theirs : List Prop) → HasShape kinds mine → HasShape kinds theirs → HasShape kinds (state_join kinds mine theirs) }
{}

/// The top state of a shape has the shape.
pub fn tops_have_the_shape()
    ensures { (kinds : List Kind) → HasShape kinds (top_state kinds) }
{}

/// The top state of a shape covers every state of the shape.
pub fn tops_cover_all()
    ensures { (kinds : List Kind) (state : List Prop) → HasShape kinds state → StateCovers kinds (top_state kinds) state }
{}

/// The order of states is total, and tells any two states apart.
pub fn order_of_states()
    ensures total { IsTotalOrder state_order }
    ensures tells_apart { IsAntisymmetric state_order }
{}

/// The distinct states of a list ascend and are those of the list, and no other list is so.
pub fn distinct_states_are_unique()
    ensures ascend { (states : List (List Prop)) → Ascends (distinct_states states) }
    ensures members { (states : List (List Prop)) (state : List Prop) → Contains (distinct_states states) state ↔ Contains states state }
    ensures alone { (states others : List (List Prop)) → Ascends others → ((state : List Prop) → Contains others state ↔ Contains states state) → others ≡ distinct_states states }
{}
