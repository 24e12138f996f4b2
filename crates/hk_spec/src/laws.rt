//! The laws of specifications, which the contracts of these functions state. The functions do
//! nothing.
ghost use Rattle.std.specs.Prelude.{◌≡◌, ◌↔◌, ℕ, ℤ, ◌<◌, false, List, IsTrue};
ghost use Rattle.hk_kinds.specs.Shapes.{HasShape};
ghost use Rattle.hk_kinds.specs.declared.properties.Prop.{Prop};
ghost use Rattle.hk_spec.specs.Runs.{Accepts};
ghost use Rattle.hk_spec.specs.Scopes.{Scope, is_good_cond};
ghost use Rattle.hk_spec.specs.Settings.{Setting};
ghost use Rattle.hk_spec.specs.Specifications.{BoundSpecification, IsBound, IsWithoutBest, down_shape, up_shape};
ghost use Rattle.hk_spec.specs.Steps.{down_step, up_step};
ghost use Rattle.hk_spec.specs.Values.{cond_holds};
ghost use Rattle.hk_spec.specs.declared.expressions.Cond.{Cond};

/// A step of a down state has the shape of down states.
pub fn down_steps_keep_the_shape()
    ensures { (b : BoundSpecification) (position value : ℕ) (state : List Prop) → IsBound b → position < b.len → value < 128 → HasShape (down_shape b.spec) state → HasShape (down_shape b.spec) (down_step b position value state) }
{}

/// A step of an up state has the shape of up states.
pub fn up_steps_keep_the_shape()
    ensures { (b : BoundSpecification) (position value : ℕ) (state : List Prop) → IsBound b → position < b.len → value < 128 → HasShape (up_shape b.spec) state → HasShape (up_shape b.spec) (up_step b position value state) }
{}

/// A good condition that may not name the bound on the cost holds or not, the same for
/// each bound.
pub fn condition_without_best()
    ensures { (scope : Scope) (p : Cond) (at : Setting) (best : ℤ) → scope.best ≡ false → IsTrue (is_good_cond scope p) → cond_holds (record at { best = best }) p ≡ cond_holds at p }
{}

/// A specification whose test does not name the bound on the cost accepts the same values for every
/// bound.
pub fn acceptance_without_best()
    ensures { (b : BoundSpecification) (values : List ℕ) (best other : ℤ) → IsWithoutBest b.spec → Accepts b best values ↔ Accepts b other values }
{}
