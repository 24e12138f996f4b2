//! The laws of graded specifications, which the contracts of these functions state. The functions do
//! nothing.
ghost use Rattle.hk_spec.specs.Grades.{IsGraded};
ghost use Rattle.hk_spec.specs.Monotone.{IsMonotone, IsRevisable};
ghost use Rattle.hk_spec.specs.Specifications.{BoundSpecification, IsBound};

/// A graded specification is monotone, with any arguments that fit.
pub fn graded_is_monotone()
    ensures { (b : BoundSpecification) → IsBound b → IsGraded b.spec → IsMonotone b }
{}

/// A graded specification, with any arguments that fit, has all that a revision asks of it.
pub fn graded_is_revisable()
    ensures { (b : BoundSpecification) → IsBound b → IsGraded b.spec → IsRevisable b }
{}
